ghost use Rattle.std.specs.Prelude.{◌≡◌, ◌+◌, ◌≤◌, [], ◌∷◌, length, sum_by, Some, IfOk};
ghost use Rattle.jv_types.specs.declared.desc.Desc.TheVariants as descs;
ghost use Rattle.jv_desc.specs.Texts.{desc_words};
ghost use Rattle.av_standin_of.specs.Templates.{hand_over, hand_over_params, throws, answers, calls_super};
ghost use Rattle.av_templates.specs.Putting.{with_rows};
ghost use Rattle.av_templates.specs.Steps.{asks_known, known_throwable, throws_known};

use crate::insns::{aload, call_extra, get_known, plain, put_known};
use crate::putting::{Locals, pushed, put, put_branch, single};
use crate::values::{
    known_as, object_vtype, prim_vtype, return_op, throwable_name, throwable_vtype, zero_op,
};
use av_asm::CodeBuilder;
use jv_frames::ref_vtype;
use jv_table::ops;
use jv_types::{Desc, Name, Prim, RefType, VType};
use std::alloc::AllocError;

/// Makes known what a local variable holds. Where memory is wanting the builder is given up.
pub fn hand_over(
    builder: CodeBuilder,
    at: &Locals,
    local: u16,
    of: VType,
) -> Result<CodeBuilder, AllocError>
    ensures { IfOk result (λ made. made ≡ with_rows builder (hand_over at.now.words at.now.types.items local of)) }
{
    let alloc = at.allocator();
    let empty = Vec::new(alloc);
    let builder = put(builder, at, empty.as_slice(), aload(local))?;
    let stack = single(alloc, of)?;
    put(builder, at, stack.as_slice(), put_known(alloc)?)
}

/// How many words a parameter takes.
fn param_words(of: &Desc) -> u16
    ensures { result ≡ desc_words of.now }
{
    match of {
        Desc::Prim(Prim::Long | Prim::Double) => 2,
        _ => 1,
    }
}

/// Makes known what a parameter holds, if it is of a reference type. Where memory is wanting the builder is given up.
fn hand_over_param(
    builder: CodeBuilder,
    at: &Locals,
    local: u16,
    of: &Desc,
) -> Result<CodeBuilder, AllocError>
    ensures { IfOk result (λ made. made ≡ with_rows builder (hand_over_params at.now.words at.now.types.items local (of.now ∷ []))) }
{
    match of {
        Desc::Ref(of) => hand_over(builder, at, local, ref_vtype(at.allocator(), of)?),
        Desc::Prim(_) => Ok(builder),
    }
}

/// Makes known what parameters of reference types hold, the first of which is in this local variable. Where memory is
/// wanting the builder is given up.
pub fn hand_over_params(
    builder: CodeBuilder,
    at: &Locals,
    first: u16,
    params: &[Desc],
) -> Result<CodeBuilder, AllocError>
    requires { first + sum_by desc_words params.now ≤ 65535 }
    ensures { IfOk result (λ made. made ≡ with_rows builder (hand_over_params at.now.words at.now.types.items first params.now)) }
{
    let mut builder = builder;
    let mut local = first;
    for of in params {
        builder = hand_over_param(builder, at, local, of)?;
        local += param_words(of);
    }
    Ok(builder)
}

/// Puts a branch that is taken where nothing is known. It hasn't landed yet. Where memory is wanting the builder is
/// given up.
fn asks_known(builder: CodeBuilder, at: &Locals) -> Result<CodeBuilder, AllocError>
    ensures { IfOk result (λ made. made ≡ with_rows builder (asks_known at.now.words at.now.types.items)) }
{
    let alloc = at.allocator();
    let empty = Vec::new(alloc);
    let builder = put(builder, at, empty.as_slice(), get_known(alloc)?)?;
    let object = single(alloc, object_vtype(alloc)?)?;
    put_branch(builder, at, object.as_slice(), ops::IFNULL)
}

/// Puts what is known, as a throwable. Where memory is wanting the builder is given up.
fn known_throwable(builder: CodeBuilder, at: &Locals) -> Result<CodeBuilder, AllocError>
    ensures { IfOk result (λ made. made ≡ with_rows builder (known_throwable at.now.words at.now.types.items)) }
{
    let alloc = at.allocator();
    let empty = Vec::new(alloc);
    let throwable = RefType::Class(throwable_name(alloc)?);
    known_as(builder, at, empty.as_slice(), &throwable)
}

/// Puts a throw of what is known. Where memory is wanting the builder is given up.
fn throws_known(builder: CodeBuilder, at: &Locals) -> Result<CodeBuilder, AllocError>
    ensures { IfOk result (λ made. made ≡ with_rows builder (throws_known at.now.words at.now.types.items)) }
{
    let builder = known_throwable(builder, at)?;
    let thrown = single(at.allocator(), throwable_vtype(at.allocator())?)?;
    put(builder, at, thrown.as_slice(), plain(ops::ATHROW))
}

/// Puts code that throws what is known, if anything is known, and else goes on behind. Where memory is wanting the
/// builder is given up.
pub fn throws(builder: CodeBuilder, at: &Locals) -> Result<CodeBuilder, AllocError>
    ensures { IfOk result (λ made. made ≡ with_rows builder (throws at.now.words at.now.types.items (length builder.steps))) }
{
    let before = builder.mark();
    let builder = asks_known(builder, at)?;
    let mut builder = throws_known(builder, at)?;
    builder.land(before + 1)?;
    Ok(builder)
}

/// Puts an answer of a reference type: what is known. Where memory is wanting the builder is given up.
fn answers_known(builder: CodeBuilder, at: &Locals, of: &RefType) -> Result<CodeBuilder, AllocError>
    ensures { IfOk result (λ made. made ≡ with_rows builder (answers at.now.words at.now.types.items (Some (descs.Ref of.now)))) }
{
    let alloc = at.allocator();
    let empty = Vec::new(alloc);
    let stack = single(alloc, ref_vtype(alloc, of)?)?;
    let builder = known_as(builder, at, empty.as_slice(), of)?;
    put(builder, at, stack.as_slice(), plain(ops::ARETURN))
}

/// Puts an answer of a primitive type: zero. Where memory is wanting the builder is given up.
fn answers_zero(builder: CodeBuilder, at: &Locals, prim: Prim) -> Result<CodeBuilder, AllocError>
    ensures { IfOk result (λ made. made ≡ with_rows builder (answers at.now.words at.now.types.items (Some (descs.Prim prim)))) }
{
    let alloc = at.allocator();
    let empty = Vec::new(alloc);
    let of = prim_vtype(alloc, prim)?;
    let stack = single(alloc, of)?;
    let builder = put(builder, at, empty.as_slice(), plain(zero_op(prim)))?;
    put(builder, at, stack.as_slice(), plain(return_op(prim)))
}

/// Puts code that answers: what is known, zero, or nothing. Where memory is wanting the builder is given up.
pub fn answers(
    builder: CodeBuilder,
    at: &Locals,
    of: &Option<Desc>,
) -> Result<CodeBuilder, AllocError>
    ensures { IfOk result (λ made. made ≡ with_rows builder (answers at.now.words at.now.types.items of.now)) }
{
    let empty = Vec::new(at.allocator());
    match of {
        None => put(builder, at, empty.as_slice(), plain(ops::RETURN)),
        Some(Desc::Ref(of)) => answers_known(builder, at, of),
        Some(Desc::Prim(prim)) => answers_zero(builder, at, *prim),
    }
}

/// Puts a call of the extra constructor of the superclass on the receiver, which isn't initialised yet. Where memory is
/// wanting the builder is given up.
pub fn calls_super(
    builder: CodeBuilder,
    at: &Locals,
    parent: &Name,
) -> Result<CodeBuilder, AllocError>
    ensures { IfOk result (λ made. made ≡ with_rows builder (calls_super at.now.words at.now.types.items parent.now)) }
{
    let alloc = at.allocator();
    let empty = Vec::new(alloc);
    let receiver = single(alloc, VType::UninitThis)?;
    let stack = pushed(alloc, receiver.as_slice(), VType::Null)?;
    let call = call_extra(alloc, parent)?;
    let builder = put(builder, at, empty.as_slice(), aload(0))?;
    let builder = put(builder, at, receiver.as_slice(), plain(ops::ACONST_NULL))?;
    put(builder, at, stack.as_slice(), call)
}
