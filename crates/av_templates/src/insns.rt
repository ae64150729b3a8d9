ghost use Rattle.std.specs.Prelude.{◌≡◌, IfOk};
ghost use Rattle.av_conditions.specs.StandIn.{library_name};
ghost use Rattle.av_standin_of.specs.Names.{extra_desc};
ghost use Rattle.av_standin_of.specs.Codes.{plain, aload, holder, get_known, put_known, put_fresh, checkcast, call_extra};

use jv_table::ops;
use jv_types::{Arg, Copied, Desc, FieldRef, Insn, MethodDesc, MethodRef, Name, RefType, Seq};
use std::alloc::{AllocError, Global};

/// An instruction without operands.
pub fn plain(op: u8) -> Insn
    ensures { result ≡ plain op }
{
    Insn {
        op,
        wide: false,
        arg: Arg::Nothing,
    }
}

/// A load of a reference from a local variable.
pub fn aload(local: u16) -> Insn
    ensures { result ≡ aload local }
{
    Insn {
        op: ops::ALOAD,
        wide: false,
        arg: Arg::Local(local),
    }
}

/// The name of the class that has what a library knows. Only memory can be wanting.
pub fn library_name(alloc: Global) -> Result<Name, AllocError>
    ensures { IfOk result (λ name. name ≡ library_name) }
{
    Name::from_slice(alloc, b"averroes/Library".as_slice())
}

/// A read or a write of a static field of `averroes/Library`. Only memory can be wanting.
pub fn holder(alloc: Global, op: u8, name: &[u8]) -> Result<Insn, AllocError>
    ensures { IfOk result (λ insn. insn ≡ holder op name.now) }
{
    let object = Name::from_slice(alloc, b"java/lang/Object".as_slice())?;
    let field = FieldRef {
        class: library_name(alloc)?,
        name: Name::from_slice(alloc, name)?,
        desc: Desc::Ref(RefType::Class(object)),
    };
    Ok(Insn {
        op,
        wide: false,
        arg: Arg::Field(field),
    })
}

/// A read of what the library knows. Only memory can be wanting.
pub fn get_known(alloc: Global) -> Result<Insn, AllocError>
    ensures { IfOk result (λ insn. insn ≡ get_known) }
{
    holder(alloc, ops::GETSTATIC, b"known".as_slice())
}

/// A write by which an object becomes known. Only memory can be wanting.
pub fn put_known(alloc: Global) -> Result<Insn, AllocError>
    ensures { IfOk result (λ insn. insn ≡ put_known) }
{
    holder(alloc, ops::PUTSTATIC, b"known".as_slice())
}

/// A write by which an object is one that was only made. Only memory can be wanting.
pub fn put_fresh(alloc: Global) -> Result<Insn, AllocError>
    ensures { IfOk result (λ insn. insn ≡ put_fresh) }
{
    holder(alloc, ops::PUTSTATIC, b"fresh".as_slice())
}

/// A cast to a type. Only memory can be wanting.
pub fn checkcast(alloc: Global, of: &RefType) -> Result<Insn, AllocError>
    ensures { IfOk result (λ insn. insn ≡ checkcast of.now) }
{
    Ok(Insn {
        op: ops::CHECKCAST,
        wide: false,
        arg: Arg::Class(of.copy(alloc)?),
    })
}

/// The descriptor of the extra constructor, `(Laverroes/Library;)V`. Only memory can be wanting.
pub fn extra_desc(alloc: Global) -> Result<MethodDesc, AllocError>
    ensures { IfOk result (λ desc. desc ≡ extra_desc) }
{
    let mut params = Vec::new(alloc);
    params.push(Desc::Ref(RefType::Class(library_name(alloc)?)))?;
    Ok(MethodDesc {
        params: Seq::from_vec(params),
        result: None,
    })
}

/// A call of the extra constructor of a class. Only memory can be wanting.
pub fn call_extra(alloc: Global, class: &Name) -> Result<Insn, AllocError>
    ensures { IfOk result (λ insn. insn ≡ call_extra class.now) }
{
    let method = MethodRef {
        class: RefType::Class(class.copy()?),
        name: Name::from_slice(alloc, b"<init>".as_slice())?,
        desc: extra_desc(alloc)?,
        interface: false,
    };
    Ok(Insn {
        op: ops::INVOKESPECIAL,
        wide: false,
        arg: Arg::Method(method),
    })
}
