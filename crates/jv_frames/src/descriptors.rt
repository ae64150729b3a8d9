ghost use Rattle.std.specs.Prelude.{◌≡◌, IfOk};
ghost use Rattle.jv_frames.specs.Types.{ref_vtype, desc_vtype};

use jv_types::{Copied, Desc, Prim, RefType, VType};
use sqlite_items::Boxed;
use std::alloc::{AllocError, Global};

/// The verification type of a class, an interface or an array. Only memory can be wanting.
pub fn ref_vtype(alloc: Global, of: &RefType) -> Result<VType, AllocError>
    ensures { IfOk result (λ made. made ≡ ref_vtype of.now) }
{
    match of {
        RefType::Class(name) => Ok(VType::Class(name.copy()?)),
        RefType::PrimArray(prim) => Ok(VType::PrimArray(*prim)),
        RefType::Array(item) => {
            let item = ref_vtype(alloc, item.get())?;
            Ok(VType::Array(Boxed::new(alloc, item)?))
        }
    }
}

/// The verification type of a value of a descriptor: an int for boolean, byte, char and short too (JVMS
/// 4.10.1.2). Only memory can be wanting.
pub fn desc_vtype(alloc: Global, desc: &Desc) -> Result<VType, AllocError>
    ensures { IfOk result (λ made. made ≡ desc_vtype desc.now) }
{
    match desc {
        Desc::Prim(Prim::Float) => Ok(VType::Float),
        Desc::Prim(Prim::Long) => Ok(VType::Long),
        Desc::Prim(Prim::Double) => Ok(VType::Double),
        Desc::Prim(_) => Ok(VType::Integer),
        Desc::Ref(of) => ref_vtype(alloc, of),
    }
}
