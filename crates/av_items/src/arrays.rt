ghost use Rattle.std.specs.Prelude.{◌≡◌, IfOk};
ghost use Rattle.jv_table.specs.declared.ops.TheConstants.{ANEWARRAY, NEWARRAY};
ghost use Rattle.jv_types.specs.declared.desc.RefType as refs;
ghost use Rattle.jv_types.specs.declared.frames.VType as types;
ghost use Rattle.jv_types.specs.declared.instruction.Arg.TheVariants as args;
ghost use Rattle.av_standin_of.specs.Codes.{insn};
ghost use Rattle.av_standin_of.specs.Items.{arrays_item, make_array, make_arrays, one_less, prim_arrays_item};
ghost use Rattle.av_templates.specs.Putting.{with_rows};
ghost use Rattle.av_items.specs.Steps.{more_arrays, one_and, prim_array};

use crate::rows::{ends, first, keeps, over_one};
use av_asm::CodeBuilder;
use av_templates::plain;
use jv_frames::ref_vtype;
use jv_table::ops;
use jv_types::{Arg, Copied, Insn, Name, Prim, RefType, VType};
use sqlite_items::Boxed;
use std::alloc::{AllocError, Global};

/// The type of an array of items of a type. Only memory can be wanting.
fn array_of(alloc: Global, of: &RefType) -> Result<RefType, AllocError>
    ensures { IfOk result (λ made. made ≡ refs.Array of.now) }
{
    let of = of.copy(alloc)?;
    Ok(RefType::Array(Boxed::new(alloc, of)?))
}

/// Puts a length of one, and an instruction that takes a length. Where memory is wanting the builder is given up.
fn one_and(builder: CodeBuilder, alloc: Global, insn: Insn) -> Result<CodeBuilder, AllocError>
    ensures { IfOk result (λ made. made ≡ with_rows builder (one_and insn)) }
{
    let builder = first(builder, alloc, plain(ops::ICONST_1))?;
    over_one(builder, alloc, VType::Integer, insn)
}

/// The instruction that makes an array of items of a reference type (JVMS 6.5). Only memory can be wanting.
fn anewarray(alloc: Global, of: &RefType) -> Result<Insn, AllocError>
    ensures { IfOk result (λ made. made ≡ insn ANEWARRAY (args.Class of.now)) }
{
    Ok(Insn {
        op: ops::ANEWARRAY,
        wide: false,
        arg: Arg::Class(of.copy(alloc)?),
    })
}

/// The instruction that makes an array of items of a primitive type (JVMS 6.5).
fn newarray(prim: Prim) -> Insn
    ensures { result ≡ insn NEWARRAY (args.NewPrim prim) }
{
    Insn {
        op: ops::NEWARRAY,
        wide: false,
        arg: Arg::NewPrim(prim),
    }
}

/// Puts instructions that make an array of items of a reference type, which becomes known. Where memory is wanting the
/// builder is given up.
fn make_array(builder: CodeBuilder, alloc: Global, of: &RefType) -> Result<CodeBuilder, AllocError>
    ensures { IfOk result (λ made. made ≡ with_rows builder (make_array of.now)) }
{
    let insn = anewarray(alloc, of)?;
    let array = array_of(alloc, of)?;
    let of = ref_vtype(alloc, &array)?;
    let builder = one_and(builder, alloc, insn)?;
    keeps(builder, alloc, of)
}

/// Puts instructions that make arrays in so many dimensions, the first of items of this type. Where memory is wanting the
/// builder is given up.
fn make_arrays(
    builder: CodeBuilder,
    alloc: Global,
    dims: u8,
    of: RefType,
) -> Result<CodeBuilder, AllocError>
    ensures { IfOk result (λ made. made ≡ with_rows builder (make_arrays dims of)) }
{
    let mut builder = builder;
    let mut of = of;
    for _ in 0..dims {
        builder = make_array(builder, alloc, &of)?;
        of = array_of(alloc, &of)?;
    }
    Ok(builder)
}

/// Puts the item that makes arrays of a class in up to so many dimensions. Where memory is wanting the builder is given
/// up.
pub fn arrays_item(builder: CodeBuilder, dims: u8, class: &Name) -> Result<CodeBuilder, AllocError>
    ensures { IfOk result (λ made. made ≡ with_rows builder (arrays_item dims class.now).rows) }
{
    let of = RefType::Class(class.copy()?);
    let builder = make_arrays(builder, class.allocator(), dims, of)?;
    ends(builder, class.allocator())
}

/// How many dimensions are left behind the first.
fn one_less(dims: u8) -> u8
    ensures { result ≡ one_less dims }
{
    if dims == 0 { 0 } else { dims - 1 }
}

/// Puts instructions that make an array of items of a primitive type, which becomes known. Where memory is wanting the
/// builder is given up.
fn prim_array(builder: CodeBuilder, alloc: Global, prim: Prim) -> Result<CodeBuilder, AllocError>
    ensures { IfOk result (λ made. made ≡ with_rows builder (prim_array prim)) }
{
    let builder = one_and(builder, alloc, newarray(prim))?;
    keeps(builder, alloc, VType::PrimArray(prim))
}

/// Puts instructions that make arrays of a primitive type in the dimensions behind the first, and the end. Where memory is
/// wanting the builder is given up.
fn more_arrays(
    builder: CodeBuilder,
    alloc: Global,
    dims: u8,
    prim: Prim,
) -> Result<CodeBuilder, AllocError>
    ensures { IfOk result (λ made. made ≡ with_rows builder (more_arrays dims prim)) }
{
    let builder = make_arrays(builder, alloc, one_less(dims), RefType::PrimArray(prim))?;
    ends(builder, alloc)
}

/// Puts the item that makes arrays of a primitive type in up to so many dimensions. Where memory is wanting the builder is
/// given up.
pub fn prim_arrays_item(
    builder: CodeBuilder,
    alloc: Global,
    dims: u8,
    prim: Prim,
) -> Result<CodeBuilder, AllocError>
    ensures { IfOk result (λ made. made ≡ with_rows builder (prim_arrays_item dims prim).rows) }
{
    let builder = prim_array(builder, alloc, prim)?;
    more_arrays(builder, alloc, dims, prim)
}
