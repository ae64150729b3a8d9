ghost use Rattle.std.specs.Prelude.{◌↔◌, ◌≤◌, ℕ, List, Contains, IfOk, vec_len, length};
ghost use Rattle.std.specs.Ordering.{nat_cmp};
ghost use Rattle.std.specs.Cmp.Lexicographic.{slice_cmp};
ghost use Rattle.std.specs.List.Sorted.{IsStrictlySortedBy};

use jv_types::Name;
use std::alloc::{AllocError, Global};
use std::collections::BTreeSet;

/// Names in order of their bytes, each once. Only memory can be wanting.
pub fn in_order(alloc: Global, names: Vec<Name>) -> Result<BTreeSet<Name>, AllocError>
    ensures same { IfOk result (λ set. (name : List ℕ) → Contains set.keys name ↔ Contains names.items name) }
    ensures rising { IfOk result (λ set. IsStrictlySortedBy (slice_cmp nat_cmp) set.keys) }
    ensures few { IfOk result (λ set. length set.keys ≤ vec_len names) }
{
    let mut left = names;
    let mut set = BTreeSet::new(alloc);
    while let Some(name) = left.pop() {
        set.insert(name)?;
    }
    Ok(set)
}
