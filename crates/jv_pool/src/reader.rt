ghost use Rattle.std.specs.Prelude.{◌≡◌, Err, IfOk, List, ℕ, false, [], ◌++◌};
ghost use Rattle.jv_pool.specs.declared.item.PoolItem.{PoolItem};
ghost use Rattle.jv_pool.specs.PoolText.{IsPoolText, BeginsWithPool};
ghost use Rattle.jv_read.specs.Reading.{Gives};
ghost use Rattle.jv_pool.specs.Steps.PoolReading.{spelled_at, content_at, next_item_at, slot_at, items_at, linked_at, pool_at};

use crate::fault::BadPool;
use crate::fields::{Fields, item_of, read_fields};
use crate::item::PoolItem;
use crate::link::are_linked;
use crate::pool::Pool;
use crate::text::is_spelled;
use jv_bytes::Cursor;
use jv_read::{ReadFault, read_bytes, read_u1, read_u2};
use jv_table::{pool_tag, tags};
use jv_types::Seq;
use std::alloc::Global;

/// A text of as many bytes (JVMS 4.4.7).
#[tactic(auto, unfolding(crate::specs::Steps::PoolReading::spelled_at))]
fn read_text(alloc: Global, cursor: &mut Cursor, len: u16) -> Result<PoolItem, ReadFault>
    ensures { Gives (λ x. x) result cursor.new (spelled_at len cursor.old) }
{
    let text = read_bytes(cursor, usize::from(len))?;
    if !is_spelled(text) {
        return Err(ReadFault::Bad);
    }
    Ok(PoolItem::Utf8(Seq::from_vec(Vec::from_slice(alloc, text)?)))
}

/// An item behind its tag and its numbers, which of a text are its length.
#[tactic(auto, unfolding(crate::specs::Steps::PoolReading::content_at, crate::specs::Steps::PoolReading::kept_at))]
fn read_content(
    alloc: Global,
    cursor: &mut Cursor,
    tag: u8,
    fields: Fields,
) -> Result<PoolItem, ReadFault>
    ensures { Gives (λ x. x) result cursor.new (content_at tag fields cursor.old) }
{
    match (tag, fields) {
        (tags::UTF8, Fields::Index(len)) => read_text(alloc, cursor, len),
        _ => item_of(tag, fields).ok_or(ReadFault::Bad),
    }
}

/// An item (JVMS 4.4), and whether it takes two indices.
#[tactic(auto, unfolding(crate::specs::Steps::PoolReading::next_item_at))]
fn read_item(alloc: Global, cursor: &mut Cursor) -> Result<(PoolItem, bool), ReadFault>
    ensures { Gives (λ x. x) result cursor.new (next_item_at cursor.old) }
{
    let tag = read_u1(cursor)?;
    let Some(row) = pool_tag(tag) else {
        return Err(ReadFault::Bad);
    };
    let fields = read_fields(cursor, row.parts)?;
    let item = read_content(alloc, cursor, tag, fields)?;
    Ok((item, row.slots == 2))
}

/// The item of the next index, where `taken` says whether the item before it takes this index too.
#[tactic(auto, unfolding(crate::specs::Steps::PoolReading::slot_at))]
fn read_slot(alloc: Global, cursor: &mut Cursor, taken: bool) -> Result<(PoolItem, bool), ReadFault>
    ensures { Gives (λ x. x) result cursor.new (slot_at taken cursor.old) }
{
    if taken {
        return Ok((PoolItem::Hole, false));
    }
    read_item(alloc, cursor)
}

/// The items of as many indices from 1 on.
fn read_items(alloc: Global, cursor: &mut Cursor, indices: u16) -> Result<Vec<PoolItem>, ReadFault>
    ensures { Gives (λ x. x.items) result cursor.new (items_at indices false cursor.old) }
{
    let mut items = Vec::new(alloc);
    let mut wide = false;
    for _ in 0..indices {
        let (item, takes_two) = read_slot(alloc, cursor, wide)?;
        items.push(item)?;
        wide = takes_two;
    }
    if wide {
        return Err(ReadFault::Bad);
    }
    Ok(items)
}

/// The items of as many indices from 1 on, which name one another.
#[tactic(auto, unfolding(crate::specs::Steps::PoolReading::linked_at))]
fn read_linked(alloc: Global, cursor: &mut Cursor, indices: u16) -> Result<Vec<PoolItem>, ReadFault>
    ensures { Gives (λ x. x.items) result cursor.new (linked_at indices cursor.old) }
{
    let items = read_items(alloc, cursor, indices)?;
    if !are_linked(&items) {
        return Err(ReadFault::Bad);
    }
    Ok(items)
}

/// A count, and the items of the indices below it.
#[tactic(auto, unfolding(crate::specs::Steps::PoolReading::pool_at))]
fn read_any(alloc: Global, cursor: &mut Cursor) -> Result<Pool, ReadFault>
    ensures { Gives (λ x. x) result cursor.new (pool_at cursor.old) }
{
    let count = read_u2(cursor)?;
    if count == 0 {
        return Err(ReadFault::Bad);
    }
    let items = read_linked(alloc, cursor, count - 1)?;
    Ok(Pool::from_items(items))
}

/// Reads a constant pool (JVMS 4.1, 4.4) from the front of the bytes that are left, and passes it. It is
/// refused `Bad` exactly where no front of these bytes is the text of a pool. After a refusal the cursor
/// stands anywhere. What is read takes no more memory than its bytes give cause for, whatever counts it
/// states.
pub fn read_pool(alloc: Global, cursor: &mut Cursor) -> Result<Pool, BadPool>
    ensures found { IfOk result (λ pool. BeginsWithPool cursor.old pool cursor.new) }
    ensures bad { result ≡ Err BadPool.Bad → (items : List PoolItem) (rest : List ℕ) → BeginsWithPool cursor.old items rest → ⊥ }
{
    match read_any(alloc, cursor) {
        Ok(pool) => Ok(pool),
        Err(ReadFault::Bad) => Err(BadPool::Bad),
        Err(ReadFault::Memory) => Err(BadPool::Memory),
    }
}

/// No bytes are the text of two pools, no pool has two texts, and no text of a pool is a front of another.
pub fn one_pool_text()
    ensures spelling { (items : List PoolItem) (a b : List ℕ) → IsPoolText a items → IsPoolText b items → a ≡ b }
    ensures reading { (bytes : List ℕ) (a b : List PoolItem) → IsPoolText bytes a → IsPoolText bytes b → a ≡ b }
    ensures fronts { (bytes : List ℕ) (a b : List PoolItem) (x y : List ℕ) → BeginsWithPool bytes a x → BeginsWithPool bytes b y → (a ≡ b) × (x ≡ y) }
    ensures whole { (a b : List PoolItem) (front more : List ℕ) → IsPoolText front a → IsPoolText (front ++ more) b → more ≡ [] }
{}
