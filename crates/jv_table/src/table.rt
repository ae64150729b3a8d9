ghost use Rattle.std.specs.Prelude.{◌≡◌, ◌≢◌, ◌<◌, ◌≤◌, ◌↔◌, ℕ, List, length, slice_get, IsNone, IsTrue, IfSome, IfNone};
ghost use Rattle.std.specs.Option.{option_copied, option_map};
ghost use Rattle.std.specs.List.{HoldsAt, AllWithin};
ghost use Rattle.jv_table.specs.Rows.{rises, row_of, IsRowOf};

use std::cmp::Ordering;
use std::marker::Model;

/// N rows whose keys rise, so that each key has one row. Clauses see the list of the rows, each with
/// its key.
pub struct Table<K: Ord + 'static, R: 'static, const N: usize> {
    rows: &'static [(K, R)],
}

impl<K: Ord + 'static, R: 'static, const N: usize> Model for Table<K, R, N> {
    ghost use Rattle.std.specs.Prelude.{◌≡◌, List, length, IsTrue};
    ghost use Rattle.std.specs.Coded.{coded_list, coded×};

    ghost Value = { List (K × R) };

    ghost coded = { coded_list (coded× K.code R.code) };

    ghost use Rattle.jv_table.specs.Rows.{rises};

    ghost view = { λ t. t.rows.now };

    ghost invariant = { λ t. (length t.rows.now ≡ N) × IsTrue (rises K.cmp t.rows.now) };
}

impl<K: Ord + 'static, R: 'static, const N: usize> Drop for Table<K, R, N> {
    fn drop(self) {
        let Table { rows: _ } = self;
    }
}

impl<K: Ord + 'static, R: 'static, const N: usize> Table<K, R, N> {
    /// The table of these rows.
    pub fn new(rows: &'static [(K, R)]) -> Table<K, R, N>
        requires len { length rows.now ≡ N }
        requires rising { IsTrue (rises K.cmp rows.now) }
        ensures { result ≡ rows.now }
    {
        Table { rows }
    }

    /// The row of a key. There is none exactly where no row has a key that is equal to it.
    pub fn find(&self, key: &K) -> Option<&'static R>
        ensures found { IfSome result (λ row. IsRowOf K.cmp key.now self.now row.now) }
        ensures none { IfNone result ((row : R) → IsRowOf K.cmp key.now self.now row → ⊥) }
        ensures value { option_copied result ≡ row_of K.cmp key.now self.now }
    {
        match place_of(self.rows, key) {
            Some(place) => Some(&self.rows[place].1),
            None => None,
        }
    }

    /// The row at a place. There is none exactly from the place N on.
    pub fn row(&self, i: usize) -> Option<&'static R>
        ensures value { option_copied result ≡ option_map (λ row. row.1) (slice_get self.now i) }
        ensures none { IsNone result ↔ (N ≤ i) }
    {
        if i < self.rows.len() {
            Some(&self.rows[i].1)
        } else {
            None
        }
    }

    /// The keys of a table rise, there are N of them, and each key has one row.
    pub fn law(&self)
        ensures len { length self.now ≡ N }
        ensures rising { IsTrue (rises K.cmp self.now) }
        ensures one { (key : K) (x y : R) → IsRowOf K.cmp key self.now x → IsRowOf K.cmp key self.now y → x ≡ y }
    {
        let _rows = &self.rows;
    }
}

/// The place of a key among rows whose keys rise, found by halves.
fn place_of<K: Ord, R>(rows: &[(K, R)], key: &K) -> Option<usize>
    requires { IsTrue (rises K.cmp rows.now) }
    ensures found { IfSome result (λ i. (i < length rows.now) × HoldsAt (λ row. K.cmp row.0 key.now ≡ Ordering.Equal) rows.now i) }
    ensures none { IfNone result (AllWithin (λ row. K.cmp row.0 key.now ≢ Ordering.Equal) rows.now 0 (length rows.now)) }
{
    let mut low = 0;
    let mut high = rows.len();
    while low < high {
        let middle = low + (high - low) / 2;
        match rows[middle].0.cmp(key) {
            Ordering::Less => low = middle + 1,
            Ordering::Equal => return Some(middle),
            Ordering::Greater => high = middle,
        }
    }
    None
}
