ghost use Rattle.std.specs.Prelude.{◌≡◌, ◌≤◌, ◌<◌, ◌+◌, false, List, [], ◌++◌, length, Err, Some, IfOk, OnOk, OnErr};
ghost use Rattle.jv_pool.specs.Lookups.{item_at};
ghost use Rattle.jv_pool.specs.PoolText.{is_wide, is_hole};
ghost use Rattle.jv_pool.specs.Adding.{slots_of, HasItem, place_of};

use crate::fault::PoolRefusal;
use crate::item::PoolItem;
use crate::pool::Pool;
use jv_types::Copied;
use std::alloc::{AllocError, Global};
use std::collections::BTreeMap;
use std::marker::Model;

/// The greatest index that a pool may have (JVMS 4.1).
const LAST_INDEX: usize = 65534;

/// A constant pool to which items are added, each once. Clauses see the list of its items from index 1
/// on.
#[derive(Debug, Drop)]
pub struct PoolWriter {
    items: Vec<PoolItem>,
    places: BTreeMap<PoolItem, u16>,
}

impl Model for PoolWriter {
    ghost use Rattle.std.specs.Prelude.{◌≤◌, List, length};
    ghost use Rattle.jv_pool.specs.declared.item.PoolItem.{PoolItem};
    ghost use Rattle.jv_pool.specs.Adding.{HasPlaces};

    ghost Value = { List PoolItem };

    ghost view = { λ w. w.items.items };

    ghost invariant = { λ w. (length w.items.items ≤ 65534) × HasPlaces w.items.items w.places };
}

/// Whether an item takes two indices (JVMS 4.4.5).
fn is_wide(item: &PoolItem) -> bool
    ensures { result ≡ is_wide item.now }
{
    matches!(item, PoolItem::Long(_) | PoolItem::Double(_))
}

/// How many indices an item takes.
fn slot_count(item: &PoolItem) -> usize
    ensures { result ≡ length (slots_of item.now) }
{
    if is_wide(item) { 2 } else { 1 }
}

/// Adds an item at the end, and the hole that it needs.
fn push_slots(items: &mut Vec<PoolItem>, item: PoolItem) -> Result<(), AllocError>
    ensures ok { OnOk result (items.new.items ≡ items.old.items ++ slots_of item) }
    ensures err { OnErr result (items.new.items ≡ items.old.items) }
{
    let len = items.len();
    let wide = is_wide(&item);
    items.push(item)?;
    if !wide {
        return Ok(());
    }
    if let Err(failed) = items.push(PoolItem::Hole) {
        items.truncate(len);
        return Err(AllocError::from(failed));
    }
    Ok(())
}

impl PoolWriter {
    /// A pool without items, which takes no memory.
    pub fn new(alloc: Global) -> PoolWriter
        ensures { result ≡ [] }
    {
        PoolWriter {
            items: Vec::new(alloc),
            places: BTreeMap::new(alloc),
        }
    }

    /// The index of an item: that of an equal one, or else of a new last one. It is refused `PoolFull`
    /// exactly where the greatest index would then pass 65534. The pool stays where it is refused.
    pub fn add(&mut self, item: PoolItem) -> Result<u16, PoolRefusal>
        requires { is_hole item ≡ false }
        ensures index { IfOk result (λ i. item_at self.new i ≡ Some item) }
        ensures first { IfOk result (λ i. place_of self.new item ≡ Some i) }
        ensures kept { OnOk result (HasItem self.old item → self.new ≡ self.old) }
        ensures grown { IfOk result (λ i. (HasItem self.old item → ⊥) → (self.new ≡ self.old ++ slots_of item) × (i ≡ length self.old + 1)) }
        ensures within { length self.new ≤ 65534 }
        ensures full { result ≡ Err PoolRefusal.PoolFull → (HasItem self.old item → ⊥) × (65534 < length self.old + length (slots_of item)) }
        ensures stays { OnErr result (self.new ≡ self.old) }
    {
        if let Some(place) = self.places.get(&item) {
            return Ok(*place);
        }
        let len = self.items.len();
        if len + slot_count(&item) > LAST_INDEX {
            return Err(PoolRefusal::PoolFull);
        }
        let key = item.copy()?;
        push_slots(&mut self.items, item)?;
        let index = (len + 1) as u16;
        if let Err(failed) = self.places.insert(key, index) {
            self.items.truncate(len);
            return Err(PoolRefusal::from(failed));
        }
        Ok(index)
    }

    /// The pool of the items added, which takes no memory.
    pub fn done(self) -> Pool
        ensures { result ≡ self }
    {
        Pool::from_items(self.items)
    }
}
