ghost use Rattle.std.specs.Prelude.{◌≡◌, IfOk};
ghost use Rattle.av_asm.specs.Mapping.{ref_of, object_text};

use jv_names::type_text;
use jv_types::{Copied, RefType, VType};
use sqlite_items::Boxed;
use std::alloc::{AllocError, Global};

/// The class or array type that a verification type is. Only memory can be wanting.
fn ref_of(alloc: Global, of: &VType) -> Result<Option<RefType>, AllocError>
    ensures { IfOk result (λ found. found ≡ ref_of of.now) }
{
    match of {
        VType::Class(name) => Ok(Some(RefType::Class(name.copy()?))),
        VType::PrimArray(prim) => Ok(Some(RefType::PrimArray(*prim))),
        VType::Array(item) => match ref_of(alloc, item.get())? {
            Some(item) => Ok(Some(RefType::Array(Boxed::new(alloc, item)?))),
            None => Ok(None),
        },
        VType::Top
        | VType::Integer
        | VType::Float
        | VType::Long
        | VType::Double
        | VType::Null
        | VType::UninitThis
        | VType::Uninit(_) => Ok(None),
    }
}

/// The text that names the class or array type that a verification type is (JVMS 4.4.1), and no text for
/// another type. Only memory can be wanting.
pub fn object_text(alloc: Global, of: &VType) -> Result<Vec<u8>, AllocError>
    ensures { IfOk result (λ text. text.items ≡ object_text of.now) }
{
    match ref_of(alloc, of)? {
        Some(of) => type_text(alloc, &of),
        None => Ok(Vec::new(alloc)),
    }
}
