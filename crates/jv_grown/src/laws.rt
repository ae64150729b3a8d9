ghost use Rattle.std.specs.Prelude.{◌≡◌, ◌++◌, false, List, [], IsTrue};
ghost use Rattle.jv_pool.specs.declared.item.PoolItem.{PoolItem};
ghost use Rattle.jv_pool.specs.PoolText.{IsItem, IsPool, is_hole, is_linked};
ghost use Rattle.jv_pool.specs.Adding.{HasItem, slots_of};
ghost use Rattle.jv_grown.specs.Once.{AreOnce};

/// An item whose parts stand keeps the pool in the form of class files, and one that wasn't there leaves
/// each item once. No items are each once. This does nothing, and its contract is the law.
pub fn pools_grow_by_items()
    ensures form { (items : List PoolItem) (item : PoolItem) → IsPool items → IsItem item → IsTrue (is_linked items item) → is_hole item ≡ false → IsPool (items ++ slots_of item) }
    ensures once { (items : List PoolItem) (item : PoolItem) → AreOnce items → (HasItem items item → ⊥) → is_hole item ≡ false → AreOnce (items ++ slots_of item) }
    ensures none { AreOnce [] }
{}
