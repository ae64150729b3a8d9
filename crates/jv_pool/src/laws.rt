//! Laws of the definitions that the contracts cite. Each function does nothing, and its contract is the
//! law.

ghost use Rattle.jv_equality.specs.Equality.{TellsApart, Ties};

use crate::item::PoolItem;

/// Of the items of a pool, `==` holds, and `cmp` gives Equal, for an item and itself alone.
pub fn items_are_told_apart()
    ensures item { TellsApart ⟦<PoolItem as PartialEq>⟧.eq }
    ensures item_order { Ties ⟦<PoolItem as Ord>⟧.cmp }
{}
