ghost use Rattle.std.specs.Prelude.{◌≡◌};
ghost use Rattle.std.specs.List.{AllZip};
ghost use Rattle.jv_names.specs.Finding.{Finds};
ghost use Rattle.jv_frames.specs.Finding.{FindsList};
ghost use Rattle.jv_frames.specs.Maps.{plain_type, IsNumbered, IsTypeOf};

use crate::descriptors::ref_vtype;
use jv_attr::MapType;
use jv_names::type_at;
use jv_pool::Pool;
use jv_read::ReadFault;
use jv_table::vtype_tags;
use jv_types::VType;
use std::alloc::Global;

/// The type of a tag that has no number behind it (JVMS 4.7.4).
fn plain_type(tag: u8) -> Option<VType>
    ensures { result ≡ plain_type tag }
{
    match tag {
        vtype_tags::TOP => Some(VType::Top),
        vtype_tags::INTEGER => Some(VType::Integer),
        vtype_tags::FLOAT => Some(VType::Float),
        vtype_tags::DOUBLE => Some(VType::Double),
        vtype_tags::LONG => Some(VType::Long),
        vtype_tags::NULL => Some(VType::Null),
        vtype_tags::UNINITIALIZED_THIS => Some(VType::UninitThis),
        _ => None,
    }
}

/// The type of a tag that has a number behind it (JVMS 4.7.4).
fn numbered_type(alloc: Global, pool: &Pool, t: &MapType) -> Result<VType, ReadFault>
    ensures { Finds (λ type. IsNumbered pool.now t.now type) result }
{
    match t.tag {
        vtype_tags::OBJECT => match type_at(alloc, pool, t.arg) {
            Ok(of) => Ok(ref_vtype(alloc, &of)?),
            Err(e) => Err(e),
        },
        vtype_tags::UNINITIALIZED => Ok(VType::Uninit(t.arg)),
        _ => Err(ReadFault::Bad),
    }
}

/// What a written type is.
fn type_of(alloc: Global, pool: &Pool, t: &MapType) -> Result<VType, ReadFault>
    ensures { Finds (λ type. IsTypeOf pool.now t.now type) result }
{
    match plain_type(t.tag) {
        Some(plain) => Ok(plain),
        None => numbered_type(alloc, pool, t),
    }
}

/// What written types are, one after the other.
pub fn types_of(alloc: Global, pool: &Pool, written: &[MapType]) -> Result<Vec<VType>, ReadFault>
    ensures { FindsList (AllZip (IsTypeOf pool.now) written.now) result }
{
    let mut types = Vec::new(alloc);
    for t in written {
        match type_of(alloc, pool, t) {
            Ok(of) => types.push(of)?,
            Err(e) => return Err(e),
        }
    }
    Ok(types)
}
