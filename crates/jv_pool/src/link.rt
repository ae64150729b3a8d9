ghost use Rattle.std.specs.Prelude.{◌≡◌};
ghost use Rattle.std.specs.Option.{option_copied};
ghost use Rattle.std.specs.List.{list_all};
ghost use Rattle.jv_pool.specs.Lookups.{item_at, names, is_utf8, is_class, is_name_and_type};
ghost use Rattle.jv_pool.specs.PoolText.{is_handled, is_linked};

use crate::item::PoolItem;

/// The item of an index.
pub fn item_at(items: &[PoolItem], i: u16) -> Option<&PoolItem>
    ensures { option_copied result ≡ item_at items.now i }
{
    if i == 0 {
        return None;
    }
    items.get(usize::from(i) - 1)
}

/// Whether an index names a text.
pub fn names_text(items: &[PoolItem], i: u16) -> bool
    ensures { result ≡ names is_utf8 items.now i }
{
    matches!(item_at(items, i), Some(PoolItem::Utf8(_)))
}

/// Whether an index names a class.
pub fn names_class(items: &[PoolItem], i: u16) -> bool
    ensures { result ≡ names is_class items.now i }
{
    matches!(item_at(items, i), Some(PoolItem::Class(_)))
}

/// Whether an index names a name and a descriptor.
pub fn names_pair(items: &[PoolItem], i: u16) -> bool
    ensures { result ≡ names is_name_and_type items.now i }
{
    matches!(item_at(items, i), Some(PoolItem::NameAndType(_, _)))
}

/// Whether a method handle of this kind may have this item (JVMS 4.4.8).
fn is_handled(kind: u8, item: &PoolItem) -> bool
    ensures { result ≡ is_handled kind item.now }
{
    match kind {
        1..=4 => matches!(item, PoolItem::Field(_, _)),
        5 | 8 => matches!(item, PoolItem::Method(_, _)),
        6 | 7 => matches!(
            item,
            PoolItem::Method(_, _) | PoolItem::InterfaceMethod(_, _)
        ),
        9 => matches!(item, PoolItem::InterfaceMethod(_, _)),
        _ => false,
    }
}

/// Whether an index names a member that a method handle of this kind may have.
fn names_handled(items: &[PoolItem], kind: u8, i: u16) -> bool
    ensures { result ≡ names (is_handled kind) items.now i }
{
    match item_at(items, i) {
        Some(item) => is_handled(kind, item),
        None => false,
    }
}

/// Whether each index in an item names an item of the right tag.
fn is_linked(items: &[PoolItem], item: &PoolItem) -> bool
    ensures { result ≡ is_linked items.now item.now }
{
    match item {
        PoolItem::Class(text) | PoolItem::Text(text) | PoolItem::MethodType(text) => {
            names_text(items, *text)
        }
        PoolItem::Field(class, pair)
        | PoolItem::Method(class, pair)
        | PoolItem::InterfaceMethod(class, pair) => {
            names_class(items, *class) && names_pair(items, *pair)
        }
        PoolItem::NameAndType(name, desc) => names_text(items, *name) && names_text(items, *desc),
        PoolItem::MethodHandle(kind, member) => names_handled(items, *kind, *member),
        PoolItem::InvokeDynamic(_, pair) => names_pair(items, *pair),
        _ => true,
    }
}

/// Whether each index in the items names an item of the right tag.
pub fn are_linked(items: &[PoolItem]) -> bool
    ensures { result ≡ list_all (is_linked items.now) items.now }
{
    items.iter().all(|item| is_linked(items, item))
}
