ghost use Rattle.std.specs.Prelude.{◌≡◌, option_and_then};
ghost use Rattle.jv_desc.specs.Texts.{IsFieldText, IsMethodText};
ghost use Rattle.jv_pool.specs.Lookups.{item_at};
ghost use Rattle.jv_names.specs.Naming.{texts_at, field_in, method_in, NamesField, NamesMethod};
ghost use Rattle.jv_names.specs.Steps.Borrowed.{lent_pair};
ghost use Rattle.jv_names.specs.Finding.{Finds};

use crate::classes::{class_at, type_at};
use jv_desc::{BadDesc, field_desc, method_desc};
use jv_pool::{Pool, PoolItem};
use jv_read::ReadFault;
use jv_types::{Desc, FieldRef, MethodDesc, MethodRef, Name};
use std::alloc::Global;

/// The name and the descriptor that an index of the pool names.
fn texts_at(pool: &Pool, index: u16) -> Option<(&[u8], &[u8])>
    ensures { lent_pair result ≡ texts_at pool.now index }
{
    let (name, desc) = pool.name_and_type(index)?;
    let name = pool.utf8(name)?;
    let desc = pool.utf8(desc)?;
    Some((name, desc))
}

/// The class of a reference to a field at an index, and its name and descriptor.
fn field_at_index(pool: &Pool, index: u16) -> Option<(u16, u16)>
    ensures { result ≡ option_and_then field_in (item_at pool.now index) }
{
    match pool.item(index)? {
        PoolItem::Field(class, pair) => Some((*class, *pair)),
        _ => None,
    }
}

/// Whether a reference to a method at an index is one to an interface's, its class, and its name and
/// descriptor.
fn method_at_index(pool: &Pool, index: u16) -> Option<(bool, u16, u16)>
    ensures { result ≡ option_and_then method_in (item_at pool.now index) }
{
    match pool.item(index)? {
        PoolItem::Method(class, pair) => Some((false, *class, *pair)),
        PoolItem::InterfaceMethod(class, pair) => Some((true, *class, *pair)),
        _ => None,
    }
}

/// The type of a field's descriptor.
fn field_type(alloc: Global, desc: &[u8]) -> Result<Desc, ReadFault>
    ensures { Finds (λ type. IsFieldText desc.now type) result }
{
    match field_desc(alloc, desc) {
        Ok(of) => Ok(of),
        Err(BadDesc::Bad) => Err(ReadFault::Bad),
        Err(BadDesc::Memory) => Err(ReadFault::Memory),
    }
}

/// The parameters and the result of a method's descriptor.
fn method_type(alloc: Global, desc: &[u8]) -> Result<MethodDesc, ReadFault>
    ensures { Finds (λ type. IsMethodText desc.now type) result }
{
    match method_desc(alloc, desc) {
        Ok(of) => Ok(of),
        Err(BadDesc::Bad) => Err(ReadFault::Bad),
        Err(BadDesc::Memory) => Err(ReadFault::Memory),
    }
}

/// The field that an index of the pool names (JVMS 4.4.2). It is `Bad` exactly where the index names none: the
/// class of a field is no array type, and the descriptor is that of a field.
pub fn field_at(alloc: Global, pool: &Pool, index: u16) -> Result<FieldRef, ReadFault>
    ensures { Finds (λ field. NamesField pool.now index field) result }
{
    let Some((class, pair)) = field_at_index(pool, index) else {
        return Err(ReadFault::Bad);
    };
    let Some((name, desc)) = texts_at(pool, pair) else {
        return Err(ReadFault::Bad);
    };
    let class = class_at(alloc, pool, class)?;
    let desc = field_type(alloc, desc)?;
    let name = Name::from_slice(alloc, name)?;
    Ok(FieldRef { class, name, desc })
}

/// The method that an index of the pool names (JVMS 4.4.2), of a class or of an interface. It is `Bad` exactly
/// where the index names none.
pub fn method_at(alloc: Global, pool: &Pool, index: u16) -> Result<MethodRef, ReadFault>
    ensures { Finds (λ method. NamesMethod pool.now index method) result }
{
    let Some((interface, class, pair)) = method_at_index(pool, index) else {
        return Err(ReadFault::Bad);
    };
    let Some((name, desc)) = texts_at(pool, pair) else {
        return Err(ReadFault::Bad);
    };
    let class = type_at(alloc, pool, class)?;
    let desc = method_type(alloc, desc)?;
    let name = Name::from_slice(alloc, name)?;
    Ok(MethodRef {
        class,
        name,
        desc,
        interface,
    })
}
