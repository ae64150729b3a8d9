ghost use Rattle.std.specs.Prelude.{◌≡◌, Some, slice_get, Contains, IfOk, IfSome, IfNone};
ghost use Rattle.jv_fix.specs.Order.{IsSet, TellsApart};

use std::alloc::{AllocError, Global};
use std::collections::BTreeSet;

/// The place of an element of a rising list, found by halves, if the list has it.
pub fn place_of<T: Ord>(rows: &[T], row: &T) -> Option<usize>
    requires { IsSet T.cmp rows.now }
    ensures found { IfSome result (λ place. slice_get rows.now place ≡ Some row.now) }
    ensures none { IfNone result (¬ Contains rows.now row.now) }
{
    match rows.binary_search(row) {
        Ok(place) => Some(place),
        Err(_) => None,
    }
}

/// The elements of a set in rising order. Only memory can be wanting.
pub fn in_order<T: Ord + Drop>(alloc: Global, set: BTreeSet<T>) -> Result<Vec<T>, AllocError>
    requires { TellsApart T.cmp }
    ensures same { IfOk result (λ rows. rows.items ≡ set.keys) }
    ensures rising { IfOk result (λ rows. IsSet T.cmp rows.items) }
{
    Ok(set.into_iter().collect(alloc)?)
}
