ghost use Rattle.std.specs.Prelude.{◌≡◌, ◌++◌, IfOk};
ghost use Rattle.jv_table.specs.declared.ops.TheConstants.{NEW};
ghost use Rattle.jv_types.specs.declared.desc.RefType as refs;
ghost use Rattle.jv_types.specs.declared.instruction.Arg.TheVariants as args;
ghost use Rattle.av_standin_of.specs.Codes.{insn};
ghost use Rattle.av_standin_of.specs.Items.{make_item};
ghost use Rattle.av_templates.specs.Putting.{with_rows};
ghost use Rattle.av_items.specs.Steps.{new_twice, initialised};

use crate::rows::{bare, first, keeps_last, over_one};
use av_asm::CodeBuilder;
use av_templates::{call_extra, plain, pushed, single};
use jv_table::ops;
use jv_types::{Arg, Copied, Insn, Name, RefType, VType};
use std::alloc::AllocError;

/// The instruction that makes an object of a class (JVMS 6.5). Only memory can be wanting.
fn new_insn(class: &Name) -> Result<Insn, AllocError>
    ensures { IfOk result (λ made. made ≡ insn NEW (args.Class (refs.Class class.now))) }
{
    Ok(Insn {
        op: ops::NEW,
        wide: false,
        arg: Arg::Class(RefType::Class(class.copy()?)),
    })
}

/// Puts instructions that make an object of a class, and have it on the stack twice. Where memory is wanting the builder
/// is given up.
fn new_twice(builder: CodeBuilder, class: &Name) -> Result<CodeBuilder, AllocError>
    ensures { IfOk result (λ made. made ≡ with_rows builder (new_twice class.now)) }
{
    let alloc = class.allocator();
    let builder = first(builder, alloc, new_insn(class)?)?;
    over_one(builder, alloc, VType::Uninit(0), plain(ops::DUP))
}

/// Puts a call that initialises the topmost of two. Where memory is wanting the builder is given up.
fn initialised(builder: CodeBuilder, class: &Name) -> Result<CodeBuilder, AllocError>
    ensures { IfOk result (λ made. made ≡ with_rows builder (initialised class.now)) }
{
    let alloc = class.allocator();
    let one = single(alloc, VType::Uninit(0))?;
    let two = pushed(alloc, one.as_slice(), VType::Uninit(0))?;
    let three = pushed(alloc, two.as_slice(), VType::Null)?;
    let call = call_extra(alloc, class)?;
    let builder = bare(builder, alloc, two.as_slice(), plain(ops::ACONST_NULL))?;
    bare(builder, alloc, three.as_slice(), call)
}

/// Puts instructions that leave an object of a class on the stack. Where memory is wanting the builder is given up.
fn made_object(builder: CodeBuilder, class: &Name) -> Result<CodeBuilder, AllocError>
    ensures { IfOk result (λ made. made ≡ with_rows builder (new_twice class.now ++ initialised class.now)) }
{
    let builder = new_twice(builder, class)?;
    initialised(builder, class)
}

/// Puts the item that makes an object of a class, which becomes known. Where memory is wanting the builder is given up.
pub fn make_item(builder: CodeBuilder, class: &Name) -> Result<CodeBuilder, AllocError>
    ensures { IfOk result (λ made. made ≡ with_rows builder (make_item class.now).rows) }
{
    let of = VType::Class(class.copy()?);
    let builder = made_object(builder, class)?;
    keeps_last(builder, class.allocator(), of)
}
