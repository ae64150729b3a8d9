ghost use Rattle.std.specs.Prelude.{◌≡◌, Contains, IfOk, map};
ghost use Rattle.std.specs.List.Sorted.{IsStrictlySortedBy};
ghost use Rattle.av_standin_of.specs.Names.{member_order};
ghost use Rattle.av_sorted.specs.declared.row.Row.{Row as RowValue};
ghost use Rattle.av_sorted.specs.Orders.{row_cmp, row_key, HasKey};

use jv_types::Name;
use std::alloc::AllocError;
use std::cmp::Ordering;

/// A value, and the name and the descriptor of the member that it is of. Rows stand in order of these two, and two rows
/// that agree in them count as equal.
#[derive(Debug, Drop)]
pub struct Row<T> {
    pub name: Name,
    /// The text of the descriptor (JVMS 4.3).
    pub desc: Name,
    pub value: T,
}

impl<T> Row<T> {
    /// Which of the two comes first: by name, and then by descriptor.
    fn compare(&self, other: &Row<T>) -> Ordering
        ensures { result ≡ row_cmp self.now other.now }
    {
        match self.name.cmp(&other.name) {
            Ordering::Equal => self.desc.cmp(&other.desc),
            unequal => unequal,
        }
    }
}

impl<T> PartialEq for Row<T> {
    ghost use Rattle.std.specs.Ordering.{eq_by_cmp};
    ghost use Rattle.std.specs.Cmp.{partial_equiv_from_equiv, eq_by_cmp_equiv};
    ghost use Rattle.av_sorted.specs.Orders.{row_cmp, row_cmp_total};

    ghost eq = { eq_by_cmp row_cmp };

    ghost laws = { partial_equiv_from_equiv (eq_by_cmp_equiv row_cmp_total) };

    fn eq(&self, other: &Row<T>) -> bool {
        self.compare(other).is_eq()
    }
}

impl<T> Eq for Row<T> {
    ghost use Rattle.std.specs.Cmp.{eq_by_cmp_equiv};
    ghost use Rattle.av_sorted.specs.Orders.{row_cmp_total};

    ghost laws = { eq_by_cmp_equiv row_cmp_total };
}

impl<T> PartialOrd for Row<T> {
    ghost use Rattle.std.specs.Prelude.{Some, refl};
    ghost use Rattle.std.specs.Cmp.{po};
    ghost use Rattle.av_sorted.specs.Orders.{row_cmp, row_cmp_total};

    ghost partial_cmp = { λ x y. Some (row_cmp x y) };

    ghost laws = { po row_cmp_total (λ x y. refl) };

    fn partial_cmp(&self, other: &Row<T>) -> Option<Ordering> {
        Some(self.compare(other))
    }
}

impl<T> Ord for Row<T> {
    ghost use Rattle.std.specs.Prelude.{refl};
    ghost use Rattle.av_sorted.specs.Orders.{row_cmp, row_cmp_total};

    ghost cmp = { row_cmp };

    ghost total = { row_cmp_total };

    ghost matches_partial_cmp = { λ x y. refl };

    ghost matches_eq = { λ x y. refl };

    fn cmp(&self, other: &Row<T>) -> Ordering {
        self.compare(other)
    }
}

/// Rows in order of their names and descriptors, one of each. Only memory can be wanting.
pub fn rows_in_order<T: Drop>(rows: Vec<Row<T>>) -> Result<Vec<Row<T>>, AllocError>
    ensures rising { IfOk result (λ made. IsStrictlySortedBy member_order (map row_key made.items)) }
    ensures only { IfOk result (λ made. (row : RowValue T) → Contains made.items row → Contains rows.items row) }
    ensures each { IfOk result (λ made. (row : RowValue T) → Contains rows.items row → HasKey row_key made.items (row_key row)) }
{
    let mut rows = rows;
    rows.sort()?;
    rows.dedup();
    Ok(rows)
}
