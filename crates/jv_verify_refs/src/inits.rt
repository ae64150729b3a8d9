ghost use Rattle.std.specs.Prelude.{◌≡◌, ◌<◌, ◌⊎◌, ◌↔◌, List, ℕ, false, IsTrue, IfOk, IfSome, IfNone, Err, Some, None, length, if◌then◌else◌};
ghost use Rattle.jv_table.specs.declared.ops.TheConstants.{NEW};
ghost use Rattle.jv_types.specs.declared.desc.RefType as refs;
ghost use Rattle.jv_types.specs.declared.instruction.Arg.TheVariants as args;
ghost use Rattle.jv_types.specs.declared.frames.Frame.{Frame as FrameValue};
ghost use Rattle.jv_types.specs.declared.frames.VType.{VType as TypeValue, Class};
ghost use Rattle.jv_frames.specs.Types.{is_uninit_this, in_words};
ghost use Rattle.jv_typing.specs.Transitions.{StandsBelow};
ghost use Rattle.jv_typing.specs.References.{param_types};
ghost use Rattle.jv_typing.specs.declared.no_typing.NoTyping.TheVariants as none;
ghost use Rattle.jv_verify_refs.specs.Steps.Parts.{CallsConstructor, IsOfThis, IsMadeAt, IsThisMade, Initialises, AreInitialised};

use crate::objects::replaced;
use crate::operands::type_of;
use crate::pops::popped;
use crate::protected::this_type;
use crate::receivers::receiver_below;
use crate::step::Step;
use crate::types::{param_words, with_params};
use jv_table::ops;
use jv_types::{Copied, Frame, Insn, MethodRef, Name, RefType, Shape, VType};
use jv_typing::NoTyping;
use std::alloc::{AllocError, Global};

/// The name of a class or interface; an array has none.
fn class_name(class: &RefType) -> Option<&Name>
    ensures found { IfSome result (λ name. class.now ≡ refs.Class name.now) }
    ensures none { IfNone result ((name : List ℕ) → class.now ≡ refs.Class name → ⊥) }
{
    match class {
        RefType::Class(name) => Some(name),
        RefType::PrimArray(_) => None,
        RefType::Array(_) => None,
    }
}

/// Whether a name is that of a class or of its superclass.
fn is_or_extends(class: &Shape, name: &Name) -> bool
    ensures { IsTrue result ↔ ((class.now.name ≡ name.now) ⊎ (class.now.parent ≡ Some name.now)) }
{
    if class.name == *name {
        return true;
    }
    match &class.parent {
        Some(parent) => *parent == *name,
        None => false,
    }
}

/// Whether a name is that of the current class or of its superclass.
fn is_of_this(step: &Step, name: &Name) -> bool
    requires { step.now.from.number < length step.now.world.now }
    ensures { IsTrue result ↔ IsOfThis step.now name.now }
{
    is_or_extends(step.world.shape(step.from), name)
}

/// What a constructor of a class of this name makes of the receiver of the current method.
fn this_made(alloc: Global, step: &Step, name: &Name) -> Result<Option<VType>, AllocError>
    requires { step.now.from.number < length step.now.world.now }
    ensures found { IfOk result (λ o. IfSome o (IsThisMade step.now name.now)) }
    ensures none { IfOk result (λ o. IfNone o (IsOfThis step.now name.now → ⊥)) }
{
    if !is_of_this(step, name) {
        return Ok(None);
    }
    let made = this_type(alloc, step)?;
    Ok(Some(made))
}

/// Whether an instruction is a `new` of this type.
fn makes(insn: &Insn, class: &RefType) -> bool
    ensures { IsTrue result ↔ ((insn.now.op ≡ NEW) × (insn.now.arg ≡ args.Class class.now)) }
{
    match type_of(&insn.arg) {
        Some(of) => insn.op == ops::NEW && of.is(class),
        None => false,
    }
}

/// Whether the instruction at an offset is a `new` of this type.
fn is_made_at(step: &Step, pc: u16, class: &RefType) -> bool
    ensures { IsTrue result ↔ IsMadeAt step.now pc class.now }
{
    match step.body.at(pc) {
        Some(insn) => makes(insn, class),
        None => false,
    }
}

/// What a constructor of the class of this name makes of what the `new` at an offset made.
fn new_made(step: &Step, pc: u16, class: &RefType, name: &Name) -> Result<Option<VType>, AllocError>
    ensures found { IfOk result (λ o. IfSome o (λ made. IsMadeAt step.now pc class.now × (made ≡ Class name.now))) }
    ensures none { IfOk result (λ o. IfNone o (IsMadeAt step.now pc class.now → ⊥)) }
{
    if !is_made_at(step, pc, class) {
        return Ok(None);
    }
    Ok(Some(VType::Class(name.copy()?)))
}

/// What a constructor of a class makes of the type of its receiver, if it may be called on it (JVMS 4.10.1.9,
/// rewrittenUninitializedType).
fn initialised(
    alloc: Global,
    step: &Step,
    class: &RefType,
    before: &VType,
) -> Result<Option<VType>, AllocError>
    requires { step.now.from.number < length step.now.world.now }
    ensures found { IfOk result (λ o. IfSome o (Initialises step.now class.now before.now)) }
    ensures none { IfOk result (λ o. IfNone o ((made : TypeValue) → Initialises step.now class.now before.now made → ⊥)) }
{
    let Some(name) = class_name(class) else {
        return Ok(None);
    };
    match before {
        VType::UninitThis => this_made(alloc, step, name),
        VType::Uninit(pc) => new_made(step, *pc, class, name),
        VType::Top
        | VType::Integer
        | VType::Float
        | VType::Long
        | VType::Double
        | VType::Null
        | VType::Class(_)
        | VType::PrimArray(_)
        | VType::Array(_) => Ok(None),
    }
}

/// Whether the receiver isn't initialised after a constructor was called on a value of this type.
fn flag_after(before: &VType, flag: bool) -> bool
    ensures { result ≡ (if is_uninit_this before.now then false else flag) }
{
    match before {
        VType::UninitThis => false,
        VType::Top | VType::Integer | VType::Float | VType::Long | VType::Double => flag,
        VType::Null | VType::Uninit(_) | VType::Class(_) | VType::PrimArray(_) => flag,
        VType::Array(_) => flag,
    }
}

/// The frame with another type in place of one, where these words are left on the stack.
fn initialise(
    alloc: Global,
    step: &Step,
    before: &VType,
    made: &VType,
    below: &[VType],
) -> Result<Frame, NoTyping>
    ensures typed { IfOk result (AreInitialised step.now before.now made.now below.now) }
    ensures rule { result ≡ Err none.Rule → step.now.body.now.max_stack < length below.now }
{
    if usize::from(step.body.max_stack) < below.len() {
        return Err(NoTyping::Rule);
    }
    let locals = replaced(alloc, before, made, step.frame.locals.as_slice())?;
    let stack = replaced(alloc, before, made, below)?;
    let flag = flag_after(before, step.frame.this_uninit);
    Ok(Frame {
        locals,
        stack,
        this_uninit: flag,
    })
}

/// A call of a constructor on a receiver of this type, of which it makes the other one.
fn construct(
    alloc: Global,
    step: &Step,
    method: &MethodRef,
    before: &VType,
    made: &VType,
) -> Result<Frame, NoTyping>
    requires result { method.now.desc.result ≡ None }
    requires made { Initialises step.now method.now.class before.now made.now }
    requires stands { StandsBelow (length (in_words (param_types method.now.desc))) step.now.frame.now.stack before.now }
    ensures typed { IfOk result (CallsConstructor step.now method.now) }
    ensures rule { result ≡ Err none.Rule → (after : FrameValue) → CallsConstructor step.now method.now after → ⊥ }
{
    let receiver = before.copy(alloc)?;
    let wanted = with_params(alloc, receiver, &method.desc)?;
    match popped(alloc, step, wanted.as_slice(), step.frame.stack.as_slice()) {
        Ok(below) => initialise(alloc, step, before, made, below),
        Err(e) => Err(e),
    }
}

/// A call of a constructor, whose receiver isn't initialised yet (JVMS 4.10.1.9.invokespecial).
pub fn call_constructor(alloc: Global, step: &Step, method: &MethodRef) -> Result<Frame, NoTyping>
    requires { step.now.from.number < length step.now.world.now }
    ensures typed { IfOk result (CallsConstructor step.now method.now) }
    ensures rule { result ≡ Err none.Rule → (after : FrameValue) → CallsConstructor step.now method.now after → ⊥ }
{
    if method.desc.result.is_some() {
        return Err(NoTyping::Rule);
    }
    let count = param_words(alloc, &method.desc)?;
    let Some(before) = receiver_below(step.frame.stack.as_slice(), count) else {
        return Err(NoTyping::Rule);
    };
    match initialised(alloc, step, &method.class, before)? {
        Some(made) => construct(alloc, step, method, before, &made),
        None => Err(NoTyping::Rule),
    }
}
