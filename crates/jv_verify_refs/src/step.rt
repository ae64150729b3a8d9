use jv_types::{Body, ClassId, Frame, Insn, MethodId};
use jv_world::World;

/// An instruction of a method's code, and the frame before it.
#[derive(Clone, Copy)]
pub struct Step<'a> {
    pub world: &'a World,
    /// The class whose code it is.
    pub from: ClassId,
    pub method: MethodId,
    pub body: &'a Body,
    /// The offset of the instruction.
    pub pc: u16,
    pub insn: &'a Insn,
    pub frame: &'a Frame,
}
