ghost use Rattle.std.specs.Prelude.{◌≡◌, IfOk};
ghost use Rattle.jv_types.specs.declared.desc.Desc.TheVariants as descs;
ghost use Rattle.jv_desc.specs.Texts.{IsFieldText};
ghost use Rattle.jv_names.specs.Naming.{IsTypeText, type_text, NamesType, NamesClass};
ghost use Rattle.jv_names.specs.Finding.{Finds};

use jv_desc::{BadDesc, field_desc, show_field};
use jv_pool::Pool;
use jv_read::ReadFault;
use jv_types::{Desc, Name, RefType, is_class_name};
use std::alloc::{AllocError, Global};

/// The array type of a descriptor.
fn array_of(alloc: Global, text: &[u8]) -> Result<RefType, ReadFault>
    ensures { Finds (λ type. IsFieldText text.now (descs.Ref type)) result }
{
    match field_desc(alloc, text) {
        Ok(Desc::Ref(of)) => Ok(of),
        Ok(Desc::Prim(_)) => Err(ReadFault::Bad),
        Err(BadDesc::Bad) => Err(ReadFault::Bad),
        Err(BadDesc::Memory) => Err(ReadFault::Memory),
    }
}

/// The class or array type that a text names (JVMS 4.4.1).
fn type_of(alloc: Global, text: &[u8]) -> Result<RefType, ReadFault>
    ensures { Finds (λ type. IsTypeText text.now type) result }
{
    if is_class_name(text) {
        return Ok(RefType::Class(Name::from_slice(alloc, text)?));
    }
    match array_of(alloc, text) {
        Ok(RefType::Class(_)) => Err(ReadFault::Bad),
        Ok(of) => Ok(of),
        Err(e) => Err(e),
    }
}

/// The class or array type that an index of the pool names (JVMS 4.4.1). It is `Bad` exactly where the index
/// names none.
pub fn type_at(alloc: Global, pool: &Pool, index: u16) -> Result<RefType, ReadFault>
    ensures { Finds (λ type. NamesType pool.now index type) result }
{
    match pool.class_name(index) {
        None => Err(ReadFault::Bad),
        Some(text) => type_of(alloc, text),
    }
}

/// The class that an index of the pool names (JVMS 4.4.1). It is `Bad` exactly where the index names none, an
/// array type too.
pub fn class_at(alloc: Global, pool: &Pool, index: u16) -> Result<Name, ReadFault>
    ensures { Finds (λ name. NamesClass pool.now index name) result }
{
    match pool.class_name(index) {
        Some(text) if is_class_name(text) => Ok(Name::from_slice(alloc, text)?),
        _ => Err(ReadFault::Bad),
    }
}

/// The text that names a class or array type: a class's name, and an array's descriptor (JVMS 4.4.1). Only
/// memory can be wanting.
pub fn type_text(alloc: Global, of: &RefType) -> Result<Vec<u8>, AllocError>
    ensures { IfOk result (λ text. text.items ≡ type_text of.now) }
{
    match of {
        RefType::Class(name) => Vec::from_slice(alloc, name.as_slice()),
        RefType::PrimArray(_) | RefType::Array(_) => {
            show_field(alloc, &Desc::Ref(of.copy(alloc)?))
        }
    }
}
