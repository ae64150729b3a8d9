ghost use Rattle.std.specs.Prelude.{◌≡◌};
ghost use Rattle.calls_facts.specs.First.Names.{own, own_field, object_init, pc_at};
ghost use Rattle.calls_facts.specs.First.Forcing.{row_of, step_of};

use crate::first::step::Step;
use calls_form::object_class::ObjectClass;
use jv_types::{ClassId, FieldId, MethodId, Place, Seq};

/// The labels of one place stand at another.
#[derive(Clone, Copy, Debug, PartialEq, Eq, PartialOrd, Ord)]
pub struct Flow {
    pub source: Place,
    pub target: Place,
}

/// The method of the class at a place.
pub fn own(place: u16) -> MethodId
    ensures { result ≡ own place }
{
    MethodId {
        class: ClassId { number: 0 },
        index: place,
    }
}

/// The field of the class at a place.
pub fn own_field(place: u16) -> FieldId
    ensures { result ≡ own_field place }
{
    FieldId {
        class: ClassId { number: 0 },
        index: place,
    }
}

/// The constructor of `java/lang/Object`.
pub fn object_init() -> MethodId
    ensures { result ≡ object_init }
{
    MethodId {
        class: ClassId { number: 1 },
        index: 0,
    }
}

/// The instructions of a method of the class.
pub fn row_of(steps: &[Seq<Step>], method: MethodId) -> &[Step]
    ensures { result.now ≡ row_of steps.now method }
{
    if method.class.number != 0 {
        return &[];
    }
    match steps.get(usize::from(method.index)) {
        None => &[],
        Some(row) => row.as_slice(),
    }
}

/// The instruction of a method at an offset.
pub fn step_of(steps: &[Seq<Step>], method: MethodId, pc: u16) -> Option<Step>
    ensures { result ≡ step_of steps.now method pc }
{
    for step in row_of(steps, method) {
        if step.pc == pc {
            return Some(*step);
        }
    }
    None
}

/// The offset of the first instruction of the method at a place, and 0 where there is none.
pub fn entry_pc(class: &ObjectClass, place: u16) -> u16
    ensures { result ≡ pc_at class.now place 0 }
{
    match class.methods.as_slice().get(usize::from(place)) {
        None => 0,
        Some(method) => match method.code.as_slice().first() {
            None => 0,
            Some(placed) => placed.pc,
        },
    }
}
