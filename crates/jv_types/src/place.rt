use crate::ids::{FieldId, MethodId};
use crate::label::Label;

/// Where a reference may stand. Words of locals and of the stack are counted from 0, the stack from its
/// bottom.
#[derive(Clone, Copy, Debug, PartialEq, Eq, PartialOrd, Ord)]
pub enum Place {
    /// A local variable, before the instruction at this offset (JVMS 2.6.1).
    Local {
        method: MethodId,
        pc: u16,
        word: u16,
    },
    /// A word of the operand stack, before the instruction at this offset (JVMS 2.6.2).
    Stack {
        method: MethodId,
        pc: u16,
        word: u16,
    },
    /// A field of the objects of a label.
    Field {
        label: Label,
        field: FieldId,
    },
    /// A static field.
    Static(FieldId),
    /// The items of the arrays of a label.
    Elem(Label),
    /// What a method returns.
    Ret(MethodId),
    /// What an instruction throws.
    Raise {
        method: MethodId,
        pc: u16,
    },
    /// What leaves a method by a throw.
    Thr(MethodId),
}
