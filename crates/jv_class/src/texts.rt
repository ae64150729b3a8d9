ghost use Rattle.std.specs.Prelude.{◌≡◌, ◌↔◌, IsTrue, IfOk};
ghost use Rattle.jv_class.specs.Steps.Kinds.{IsOfKind, IsKeptOf, AreKept, kept_at};
ghost use Rattle.jv_names.specs.PoolNames.{HasText, HasClassName, HasNames, IsNamedItem, IsNamedPool};

use crate::kinds::{Kind, TextKinds, kinds_of};
use jv_pool::{Pool, PoolItem};
use std::alloc::{AllocError, Global};

/// What is kept of an item of the pool: of which kinds it is, where it is a text.
fn kept_of(alloc: Global, item: &PoolItem) -> Result<Option<TextKinds>, AllocError>
    ensures { IfOk result (IsKeptOf item.now) }
{
    match item {
        PoolItem::Utf8(text) => {
            let kinds = kinds_of(alloc, text.as_slice())?;
            Ok(Some(kinds))
        }
        _ => Ok(None),
    }
}

/// What is kept of the texts of a pool, by their places. Each text is looked at once, however many items name
/// it.
pub fn keep_texts(alloc: Global, pool: &Pool) -> Result<Vec<Option<TextKinds>>, AllocError>
    ensures { IfOk result (λ kept. AreKept pool.now kept.items) }
{
    let mut kept = Vec::new(alloc);
    for item in pool.items() {
        let kinds = kept_of(alloc, item)?;
        kept.push(kinds)?;
    }
    Ok(kept)
}

/// What is kept of the text at an index of the pool.
fn kept_at(kept: &[Option<TextKinds>], index: u16) -> Option<TextKinds>
    ensures { result ≡ kept_at kept.now index }
{
    if index == 0 {
        return None;
    }
    match kept.get(usize::from(index) - 1) {
        Some(kinds) => *kinds,
        None => None,
    }
}

/// Whether the index names a text of this kind.
pub fn names_text(_pool: &Pool, kept: &[Option<TextKinds>], index: u16, kind: Kind) -> bool
    requires { AreKept _pool.now kept.now }
    ensures { IsTrue result ↔ HasText _pool.now index (IsOfKind kind) }
{
    match kept_at(kept, index) {
        Some(kinds) => kinds.says(kind),
        None => false,
    }
}

/// Whether the index names a class, and not an array type.
pub fn names_class(pool: &Pool, kept: &[Option<TextKinds>], index: u16) -> bool
    requires { AreKept pool.now kept.now }
    ensures { IsTrue result ↔ HasClassName pool.now index }
{
    match pool.item(index) {
        Some(PoolItem::Class(name)) => names_text(pool, kept, *name, Kind::ClassName),
        _ => false,
    }
}

/// Whether the index names a name and a descriptor of these kinds.
fn names_both(
    pool: &Pool,
    kept: &[Option<TextKinds>],
    index: u16,
    name_kind: Kind,
    desc_kind: Kind,
) -> bool
    requires { AreKept pool.now kept.now }
    ensures { IsTrue result ↔ HasNames pool.now index (IsOfKind name_kind) (IsOfKind desc_kind) }
{
    match pool.item(index) {
        Some(PoolItem::NameAndType(name, desc)) => {
            names_text(pool, kept, *name, name_kind) && names_text(pool, kept, *desc, desc_kind)
        }
        _ => false,
    }
}

/// Whether an item of the pool keeps the rules on names and descriptors.
fn is_named(pool: &Pool, kept: &[Option<TextKinds>], item: &PoolItem) -> bool
    requires { AreKept pool.now kept.now }
    ensures { IsTrue result ↔ IsNamedItem pool.now item.now }
{
    match item {
        PoolItem::Class(name) => names_text(pool, kept, *name, Kind::TypeName),
        PoolItem::Field(_, pair) => {
            names_both(pool, kept, *pair, Kind::FieldName, Kind::FieldDescriptor)
        }
        PoolItem::Method(_, pair) | PoolItem::InterfaceMethod(_, pair) => {
            names_both(pool, kept, *pair, Kind::CalledName, Kind::StaticDescriptor)
        }
        _ => true,
    }
}

/// Whether each item of the pool keeps them.
pub fn are_named(pool: &Pool, kept: &[Option<TextKinds>]) -> bool
    requires { AreKept pool.now kept.now }
    ensures { IsTrue result ↔ IsNamedPool pool.now }
{
    for item in pool.items() {
        if !is_named(pool, kept, item) {
            return false;
        }
    }
    true
}
