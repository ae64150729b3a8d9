ghost use Rattle.std.specs.Prelude.{◌≡◌, IfOk};
ghost use Rattle.jv_types.specs.declared.desc.Desc.TheVariants as descs;
ghost use Rattle.jv_frames.specs.Types.{desc_vtype};
ghost use Rattle.av_conditions.specs.CoreClasses.{throwable_name};
ghost use Rattle.av_standin_of.specs.Codes.{zero_op, return_op, object_vtype, throwable_vtype, known_as, value_of, values_of};
ghost use Rattle.av_templates.specs.Putting.{with_rows};

use crate::insns::{checkcast, get_known, plain};
use crate::putting::{Locals, pushed, put};
use av_asm::CodeBuilder;
use jv_frames::desc_vtype;
use jv_table::ops;
use jv_types::{Desc, Name, Prim, RefType, VType};
use std::alloc::{AllocError, Global};

/// The opcode that pushes zero of a primitive type (JVMS 6.5).
pub fn zero_op(prim: Prim) -> u8
    ensures { result ≡ zero_op prim }
{
    match prim {
        Prim::Long => ops::LCONST_0,
        Prim::Float => ops::FCONST_0,
        Prim::Double => ops::DCONST_0,
        _ => ops::ICONST_0,
    }
}

/// The opcode that returns a value of a primitive type (JVMS 6.5).
pub fn return_op(prim: Prim) -> u8
    ensures { result ≡ return_op prim }
{
    match prim {
        Prim::Long => ops::LRETURN,
        Prim::Float => ops::FRETURN,
        Prim::Double => ops::DRETURN,
        _ => ops::IRETURN,
    }
}

/// The type of Object. Only memory can be wanting.
pub fn object_vtype(alloc: Global) -> Result<VType, AllocError>
    ensures { IfOk result (λ made. made ≡ object_vtype) }
{
    Ok(VType::Class(Name::from_slice(alloc, b"java/lang/Object".as_slice())?))
}

/// The name of Throwable. Only memory can be wanting.
pub fn throwable_name(alloc: Global) -> Result<Name, AllocError>
    ensures { IfOk result (λ name. name ≡ throwable_name) }
{
    Name::from_slice(alloc, b"java/lang/Throwable".as_slice())
}

/// The type of Throwable. Only memory can be wanting.
pub fn throwable_vtype(alloc: Global) -> Result<VType, AllocError>
    ensures { IfOk result (λ made. made ≡ throwable_vtype) }
{
    Ok(VType::Class(throwable_name(alloc)?))
}

/// The type of a value of a primitive type. Only memory can be wanting.
pub fn prim_vtype(alloc: Global, prim: Prim) -> Result<VType, AllocError>
    ensures { IfOk result (λ made. made ≡ desc_vtype (descs.Prim prim)) }
{
    desc_vtype(alloc, &Desc::Prim(prim))
}

/// Puts what is known, as a value of a reference type. Where memory is wanting the builder is given up.
pub fn known_as(
    builder: CodeBuilder,
    at: &Locals,
    stack: &[VType],
    of: &RefType,
) -> Result<CodeBuilder, AllocError>
    ensures { IfOk result (λ made. made ≡ with_rows builder (known_as at.now.words at.now.types.items stack.now of.now)) }
{
    let alloc = at.allocator();
    let get = get_known(alloc)?;
    let above = pushed(alloc, stack, object_vtype(alloc)?)?;
    let cast = checkcast(alloc, of)?;
    let builder = put(builder, at, stack, get)?;
    put(builder, at, above.as_slice(), cast)
}

/// Puts a value of a type: what is known, or zero. Where memory is wanting the builder is given up.
pub fn value_of(
    builder: CodeBuilder,
    at: &Locals,
    stack: &[VType],
    of: &Desc,
) -> Result<CodeBuilder, AllocError>
    ensures { IfOk result (λ made. made ≡ with_rows builder (value_of at.now.words at.now.types.items stack.now of.now)) }
{
    match of {
        Desc::Ref(of) => known_as(builder, at, stack, of),
        Desc::Prim(prim) => put(builder, at, stack, plain(zero_op(*prim))),
    }
}

/// Puts values of types one behind the other, above what is on the stack. Where memory is wanting the builder is given
/// up.
pub fn values_of(
    builder: CodeBuilder,
    at: &Locals,
    stack: Vec<VType>,
    descs: &[Desc],
) -> Result<CodeBuilder, AllocError>
    ensures { IfOk result (λ made. made ≡ with_rows builder (values_of at.now.words at.now.types.items stack.items descs.now)) }
{
    let mut builder = builder;
    let mut stack = stack;
    for of in descs {
        builder = value_of(builder, at, stack.as_slice(), of)?;
        stack.push(desc_vtype(at.allocator(), of)?)?;
    }
    Ok(builder)
}
