ghost use Rattle.std.specs.Prelude.{◌≡◌, [], Some, IfOk};
ghost use Rattle.jv_types.specs.declared.desc.Desc.TheVariants as descs;
ghost use Rattle.av_standin_of.specs.Codes.{get_known, pop_op};
ghost use Rattle.av_standin_of.specs.Items.{call_insn, call_item_of, call_op, call_rows, finalize_item, takes_result};
ghost use Rattle.av_templates.specs.Putting.{with_rows};
ghost use Rattle.av_items.specs.Coding.{with_code};
ghost use Rattle.av_items.specs.Steps.{answered, called, finalize_of_object, got_as, throwable_known};

use crate::rows::{bare, ends, first, keeps, keeps_last, over_one, values_of};
use av_asm::CodeBuilder;
use av_sketches::Callee;
use av_templates::{
    checkcast, get_known, holder, object_vtype, plain, prim_vtype, single, throwable_vtype,
    with_descs,
};
use jv_frames::ref_vtype;
use jv_table::ops;
use jv_types::{Arg, Copied, Desc, Insn, MethodDesc, MethodRef, Name, Prim, RefType, Seq, VType};
use std::alloc::{AllocError, Global};

/// The opcode that drops a value of a primitive type (JVMS 6.5).
fn pop_op(prim: Prim) -> u8
    ensures { result ≡ pop_op prim }
{
    match prim {
        Prim::Long => ops::POP2,
        Prim::Double => ops::POP2,
        _ => ops::POP,
    }
}

/// Drops a value of a primitive type. Where memory is wanting the builder is given up.
fn drops(builder: CodeBuilder, alloc: Global, prim: Prim) -> Result<CodeBuilder, AllocError>
    ensures { IfOk result (λ made. made ≡ with_rows builder (takes_result (Some (descs.Prim prim)))) }
{
    over_one(
        builder,
        alloc,
        prim_vtype(alloc, prim)?,
        plain(pop_op(prim)),
    )
}

/// Makes known what a call left, or drops it where it is primitive. Where memory is wanting the builder is given up.
fn takes_result(
    builder: CodeBuilder,
    alloc: Global,
    of: &Option<Desc>,
) -> Result<CodeBuilder, AllocError>
    ensures { IfOk result (λ made. made ≡ with_rows builder (takes_result of.now)) }
{
    match of {
        None => Ok(builder),
        Some(Desc::Ref(of)) => keeps(builder, alloc, ref_vtype(alloc, of)?),
        Some(Desc::Prim(prim)) => drops(builder, alloc, *prim),
    }
}

/// The opcode by which a method of a class or an interface is called (JVMS 6.5).
fn call_op(interface: bool) -> u8
    ensures { result ≡ call_op interface }
{
    if interface {
        ops::INVOKEINTERFACE
    } else {
        ops::INVOKEVIRTUAL
    }
}

/// The call of a method. Only memory can be wanting.
fn call_insn(callee: &Callee) -> Result<Insn, AllocError>
    ensures { IfOk result (λ made. made ≡ call_insn callee.now.interface callee.now.class callee.now.name callee.now.desc) }
{
    let method = MethodRef {
        class: RefType::Class(callee.class.copy()?),
        name: callee.name.copy()?,
        desc: callee.desc.copy()?,
        interface: callee.interface,
    };
    Ok(Insn {
        op: call_op(callee.interface),
        wide: false,
        arg: Arg::Method(method),
    })
}

/// Puts what this instruction gives, as an object of a class. Where memory is wanting the builder is given up.
fn got_as(builder: CodeBuilder, get: Insn, class: &Name) -> Result<CodeBuilder, AllocError>
    ensures { IfOk result (λ made. made ≡ with_rows builder (got_as get class.now)) }
{
    let alloc = class.allocator();
    let cast = checkcast(alloc, &RefType::Class(class.copy()?))?;
    let object = object_vtype(alloc)?;
    let builder = first(builder, alloc, get)?;
    over_one(builder, alloc, object, cast)
}

/// Puts known values and zeros, and the call that takes them. Where memory is wanting the builder is given up.
fn called(builder: CodeBuilder, callee: &Callee) -> Result<CodeBuilder, AllocError>
    ensures { IfOk result (λ made. made ≡ with_rows builder (called callee.now.interface callee.now.class callee.now.name callee.now.desc)) }
{
    let alloc = callee.class.allocator();
    let receiver = single(alloc, VType::Class(callee.class.copy()?))?;
    let before = single(alloc, VType::Class(callee.class.copy()?))?;
    let stack = with_descs(before, callee.desc.params.as_slice())?;
    let call = call_insn(callee)?;
    let builder = values_of(builder, alloc, receiver, callee.desc.params.as_slice())?;
    bare(builder, alloc, stack.as_slice(), call)
}

/// Puts the call of a method on what an instruction gives. Where memory is wanting the builder is given up.
fn call_rows(builder: CodeBuilder, get: Insn, callee: &Callee) -> Result<CodeBuilder, AllocError>
    ensures { IfOk result (λ made. made ≡ with_rows builder (call_rows get callee.now.interface callee.now.class callee.now.name callee.now.desc)) }
{
    let builder = got_as(builder, get, &callee.class)?;
    called(builder, callee)
}

/// Takes what a call left, and puts the end of an item. Where memory is wanting the builder is given up.
fn answered(
    builder: CodeBuilder,
    alloc: Global,
    of: &Option<Desc>,
) -> Result<CodeBuilder, AllocError>
    ensures { IfOk result (λ made. made ≡ with_rows builder (answered of.now)) }
{
    let builder = takes_result(builder, alloc, of)?;
    ends(builder, alloc)
}

/// Puts what handles all that a call throws: it becomes known. Where memory is wanting the builder is given up.
fn throwable_known(builder: CodeBuilder, alloc: Global) -> Result<CodeBuilder, AllocError>
    ensures { IfOk result (λ made. made ≡ with_rows builder throwable_known) }
{
    keeps_last(builder, alloc, throwable_vtype(alloc)?)
}

/// Puts the item that calls a method on what an instruction gives, into a builder in which nothing was put. Where memory
/// is wanting the builder is given up.
fn call_item_of(builder: CodeBuilder, get: Insn, callee: &Callee) -> Result<CodeBuilder, AllocError>
    requires { builder.steps ≡ [] }
    ensures { IfOk result (λ made. made ≡ with_code builder (call_item_of get callee.now.interface callee.now.class callee.now.name callee.now.desc)) }
{
    let alloc = callee.class.allocator();
    let builder = call_rows(builder, get, callee)?;
    let covered = builder.mark();
    let mut builder = answered(builder, alloc, &callee.desc.result)?;
    builder.handler(0, covered)?;
    throwable_known(builder, alloc)
}

/// Puts the item that calls a method on what is known, into a builder in which nothing was put. Where memory is wanting the
/// builder is given up.
pub fn call_item(builder: CodeBuilder, callee: &Callee) -> Result<CodeBuilder, AllocError>
    requires { builder.steps ≡ [] }
    ensures { IfOk result (λ made. made ≡ with_code builder (call_item_of get_known callee.now.interface callee.now.class callee.now.name callee.now.desc)) }
{
    let get = get_known(callee.class.allocator())?;
    call_item_of(builder, get, callee)
}

/// Object's `finalize()V`, as a call names it. Only memory can be wanting.
fn finalize(alloc: Global) -> Result<Callee, AllocError>
    ensures { IfOk result (λ made. made ≡ finalize_of_object) }
{
    let desc = MethodDesc {
        params: Seq::from_vec(Vec::new(alloc)),
        result: None,
    };
    Ok(Callee {
        interface: false,
        class: Name::from_slice(alloc, b"java/lang/Object".as_slice())?,
        name: Name::from_slice(alloc, b"finalize".as_slice())?,
        desc,
    })
}

/// Puts the item that calls Object's `finalize()V` on what was only made, into a builder in which nothing was put. Where
/// memory is wanting the builder is given up.
pub fn finalize_item(builder: CodeBuilder, alloc: Global) -> Result<CodeBuilder, AllocError>
    requires { builder.steps ≡ [] }
    ensures { IfOk result (λ made. made ≡ with_code builder finalize_item) }
{
    let callee = finalize(alloc)?;
    let get = holder(alloc, ops::GETSTATIC, b"fresh".as_slice())?;
    call_item_of(builder, get, &callee)
}
