ghost use Rattle.std.specs.Prelude.{◌≡◌, option_map};
ghost use Rattle.std.specs.Option.{option_copied};
ghost use Rattle.calls_form.specs.Kinds.{result_kinds};
ghost use Rattle.calls_form.specs.ClassesWalk.{static_field, instance_field, virtual_method, special_method, static_method, exchange_of, kind_words, pair_words, reference_and, called, field_effect, method_effect, effect_at, is_init};

use crate::class_of_types::has_static;
use crate::object_class::{Field, Instruction, Kind, Method, ObjectClass};
use bitflags::Flags;
use jv_types::Access;

/// The kinds of the words that an instruction takes from the stack, and of those that it gives it, the
/// last one on top.
#[derive(Clone, Copy)]
pub struct Exchange<'a> {
    pub takes: &'a [Kind],
    pub gives: &'a [Kind],
}

static NONE: [Kind; 0] = [];

static WORD: [Kind; 1] = [Kind::Word];

static REFERENCE: [Kind; 1] = [Kind::Reference];

static TWO_WORDS: [Kind; 2] = [Kind::Word, Kind::Word];

static TWO_REFERENCES: [Kind; 2] = [Kind::Reference, Kind::Reference];

static REFERENCE_AND_WORD: [Kind; 2] = [Kind::Reference, Kind::Word];

/// One word of this kind.
fn kind_words<'a>(kind: Kind) -> &'a [Kind]
    ensures { result.now ≡ kind_words kind }
{
    match kind {
        Kind::Word => WORD.as_slice(),
        Kind::Reference => REFERENCE.as_slice(),
    }
}

/// Two words of this kind.
fn pair_words<'a>(kind: Kind) -> &'a [Kind]
    ensures { result.now ≡ pair_words kind }
{
    match kind {
        Kind::Word => TWO_WORDS.as_slice(),
        Kind::Reference => TWO_REFERENCES.as_slice(),
    }
}

/// A reference, and a word of this kind on top of it.
fn reference_and<'a>(kind: Kind) -> &'a [Kind]
    ensures { result.now ≡ reference_and kind }
{
    match kind {
        Kind::Word => REFERENCE_AND_WORD.as_slice(),
        Kind::Reference => TWO_REFERENCES.as_slice(),
    }
}

/// The word of a result of this kind, or none.
pub fn result_words<'a>(kind: Option<Kind>) -> &'a [Kind]
    ensures { result.now ≡ result_kinds kind }
{
    match kind {
        None => NONE.as_slice(),
        Some(kind) => kind_words(kind),
    }
}

/// The static field at a place.
#[tactic(auto, unfolding(crate::specs::ClassesWalk::static_field))]
fn static_field(class: &ObjectClass, place: u16) -> Option<&Field>
    ensures { option_copied result ≡ static_field class.now place }
{
    match class.fields.as_slice().get(usize::from(place)) {
        Some(field) if has_static(field.access) => Some(field),
        _ => None,
    }
}

/// The field at a place that isn't static.
#[tactic(auto, unfolding(crate::specs::ClassesWalk::instance_field))]
fn instance_field(class: &ObjectClass, place: u16) -> Option<&Field>
    ensures { option_copied result ≡ instance_field class.now place }
{
    match class.fields.as_slice().get(usize::from(place)) {
        Some(field) if !has_static(field.access) => Some(field),
        _ => None,
    }
}

/// Whether a method is a constructor (JVMS 2.9).
fn is_init(method: &Method) -> bool
    ensures { result ≡ is_init method.now }
{
    method.name.as_slice() == b"<init>".as_slice()
}

/// The method at a place that `invokevirtual` may name: an instance method that is neither private nor
/// a constructor.
#[tactic(auto, unfolding(crate::specs::ClassesWalk::virtual_method))]
fn virtual_method(class: &ObjectClass, place: u16) -> Option<&Method>
    ensures { option_copied result ≡ virtual_method class.now place }
{
    match class.methods.as_slice().get(usize::from(place)) {
        Some(method)
            if !has_static(method.access)
                && (!method.access.contains(Access::PRIVATE) && !is_init(method)) => {
            Some(method)
        }
        _ => None,
    }
}

/// The method at a place that `invokespecial` may name: a private instance method, or a constructor.
#[tactic(auto, unfolding(crate::specs::ClassesWalk::special_method))]
fn special_method(class: &ObjectClass, place: u16) -> Option<&Method>
    ensures { option_copied result ≡ special_method class.now place }
{
    match class.methods.as_slice().get(usize::from(place)) {
        Some(method)
            if !has_static(method.access)
                && (method.access.contains(Access::PRIVATE) || is_init(method)) => { Some(method) }
        _ => None,
    }
}

/// The static method at a place.
#[tactic(auto, unfolding(crate::specs::ClassesWalk::static_method))]
fn static_method(class: &ObjectClass, place: u16) -> Option<&Method>
    ensures { option_copied result ≡ static_method class.now place }
{
    match class.methods.as_slice().get(usize::from(place)) {
        Some(method) if has_static(method.access) => Some(method),
        _ => None,
    }
}

/// A call takes the argument words, and gives the result's.
fn called(method: &Method) -> Option<Exchange<'_>>
    ensures { option_map exchange_of result ≡ called method.now }
{
    Some(Exchange {
        takes: method.arguments.as_slice(),
        gives: result_words(method.result),
    })
}

/// What an instruction that names a field takes and gives.
#[tactic(auto, unfolding(crate::specs::ClassesWalk::field_effect))]
fn field_effect(class: &ObjectClass, instruction: Instruction) -> Option<Exchange<'_>>
    ensures { option_map exchange_of result ≡ field_effect class.now instruction }
{
    match instruction {
        Instruction::GetStatic(place) => {
            let field = static_field(class, place)?;
            some_exchange(NONE.as_slice(), kind_words(field.kind))
        }
        Instruction::PutStatic(place) => {
            let field = static_field(class, place)?;
            some_exchange(kind_words(field.kind), NONE.as_slice())
        }
        Instruction::GetField(place) => {
            let field = instance_field(class, place)?;
            some_exchange(REFERENCE.as_slice(), kind_words(field.kind))
        }
        Instruction::PutField(place) => {
            let field = instance_field(class, place)?;
            some_exchange(reference_and(field.kind), NONE.as_slice())
        }
        _ => None,
    }
}

/// What an instruction that names a method takes and gives.
#[tactic(auto, unfolding(crate::specs::ClassesWalk::method_effect))]
fn method_effect(class: &ObjectClass, instruction: Instruction) -> Option<Exchange<'_>>
    ensures { option_map exchange_of result ≡ method_effect class.now instruction }
{
    match instruction {
        Instruction::InvokeVirtual(place) => called(virtual_method(class, place)?),
        Instruction::InvokeSpecial(place) => called(special_method(class, place)?),
        Instruction::InvokeStatic(place) => called(static_method(class, place)?),
        Instruction::InvokeObjectInit => some_exchange(REFERENCE.as_slice(), NONE.as_slice()),
        _ => None,
    }
}

/// An exchange of these words.
fn some_exchange<'a>(takes: &'a [Kind], gives: &'a [Kind]) -> Option<Exchange<'a>>
    ensures { option_map exchange_of result ≡ Some (takes.now, gives.now) }
{
    Some(Exchange { takes, gives })
}

/// What an instruction takes and gives, where a word of this kind is on top (JVMS 6.5). A return leads
/// to no other instruction.
#[tactic(auto, unfolding(crate::specs::ClassesWalk::effect_at))]
pub fn effect_at(
    class: &ObjectClass,
    top: Option<Kind>,
    instruction: Instruction,
) -> Option<Exchange<'_>>
    ensures { option_map exchange_of result ≡ effect_at class.now top instruction }
{
    match instruction {
        Instruction::Nop => some_exchange(NONE.as_slice(), NONE.as_slice()),
        Instruction::PushNull | Instruction::New => {
            some_exchange(NONE.as_slice(), REFERENCE.as_slice())
        }
        Instruction::PushWord => some_exchange(NONE.as_slice(), WORD.as_slice()),
        Instruction::Load { kind, local: _ } => some_exchange(NONE.as_slice(), kind_words(kind)),
        Instruction::Store { kind, local: _ } => some_exchange(kind_words(kind), NONE.as_slice()),
        Instruction::Pop => some_exchange(kind_words(top?), NONE.as_slice()),
        Instruction::Dup => some_exchange(kind_words(top?), pair_words(top?)),
        Instruction::Combine => some_exchange(TWO_WORDS.as_slice(), WORD.as_slice()),
        Instruction::Negate => some_exchange(WORD.as_slice(), WORD.as_slice()),
        Instruction::GetStatic(_)
        | Instruction::PutStatic(_)
        | Instruction::GetField(_)
        | Instruction::PutField(_) => field_effect(class, instruction),
        Instruction::InvokeVirtual(_)
        | Instruction::InvokeSpecial(_)
        | Instruction::InvokeObjectInit
        | Instruction::InvokeStatic(_) => method_effect(class, instruction),
        Instruction::Return(_) => None,
    }
}
