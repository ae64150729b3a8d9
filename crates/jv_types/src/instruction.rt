ghost use Rattle.std.specs.Prelude.{◌≡◌, IfOk};

use crate::copied::Copied;
use crate::desc::{PrimType, RefType};
use crate::numbers::copy_plain;
use crate::references::{FieldRef, MethodRef};
use crate::seq::Seq;
use std::alloc::{AllocError, Global};

/// The constant that a load names (JVMS 6.5, ldc, ldc_w and ldc2_w).
#[derive(Debug, PartialEq, Eq, PartialOrd, Ord, Drop)]
pub enum Const {
    Int(i32),
    /// The bits of a float.
    Float(u32),
    Long(i64),
    /// The bits of a double.
    Double(u64),
    /// A string, whose text is left out.
    Text,
    /// A class or an array type.
    Class(RefType),
    /// A method handle, which is left out.
    Handle,
    /// A method type, which is left out.
    MethodKind,
}

impl Const {
    /// An equal constant. Only memory can be wanting.
    pub fn copy(&self, alloc: Global) -> Result<Const, AllocError>
        ensures { IfOk result (λ made. made ≡ self.now) }
    {
        Ok(match self {
            Const::Int(value) => Const::Int(*value),
            Const::Float(bits) => Const::Float(*bits),
            Const::Long(value) => Const::Long(*value),
            Const::Double(bits) => Const::Double(*bits),
            Const::Text => Const::Text,
            Const::Class(class) => Const::Class(class.copy(alloc)?),
            Const::Handle => Const::Handle,
            Const::MethodKind => Const::MethodKind,
        })
    }
}

/// The operands of an instruction (JVMS 6.5), with what they name in place of the pool's indices, and
/// with targets as offsets in bytes from the start of the code.
#[derive(Debug, PartialEq, Eq, PartialOrd, Ord, Drop)]
pub enum Arg {
    Nothing,
    /// The index of a local variable.
    Local(u16),
    /// The number that bipush or sipush pushes.
    Small(i16),
    /// The local variable of an iinc, and what is added.
    Inc(u16, i16),
    Constant(Const),
    Class(RefType),
    Field(FieldRef),
    Method(MethodRef),
    /// A call site that is linked at run time, which is left out.
    Dynamic,
    /// The element type of a newarray.
    NewPrim(PrimType),
    /// The array type of a multianewarray, and how many of its dimensions are made.
    Multi(RefType, u8),
    /// The target of a jump.
    Jump(u16),
    /// A tableswitch: the targets of `low` and the values after it.
    Table {
        default: u16,
        low: i32,
        targets: Seq<u16>,
    },
    /// A lookupswitch: values and their targets.
    Lookup {
        default: u16,
        cases: Seq<(i32, u16)>,
    },
}

impl Arg {
    /// Equal operands. Only memory can be wanting.
    pub fn copy(&self, alloc: Global) -> Result<Arg, AllocError>
        ensures { IfOk result (λ made. made ≡ self.now) }
    {
        Ok(match self {
            Arg::Nothing => Arg::Nothing,
            Arg::Local(local) => Arg::Local(*local),
            Arg::Small(value) => Arg::Small(*value),
            Arg::Inc(local, by) => Arg::Inc(*local, *by),
            Arg::Constant(constant) => Arg::Constant(constant.copy(alloc)?),
            Arg::Class(class) => Arg::Class(class.copy(alloc)?),
            Arg::Field(field) => Arg::Field(field.copy()?),
            Arg::Method(method) => Arg::Method(method.copy()?),
            Arg::Dynamic => Arg::Dynamic,
            Arg::NewPrim(prim) => Arg::NewPrim(*prim),
            Arg::Multi(class, dims) => Arg::Multi(class.copy(alloc)?, *dims),
            Arg::Jump(target) => Arg::Jump(*target),
            Arg::Table {
                default,
                low,
                targets,
            } => Arg::Table {
                default: *default,
                low: *low,
                targets: copy_plain(alloc, targets)?,
            },
            Arg::Lookup { default, cases } => Arg::Lookup {
                default: *default,
                cases: copy_plain(alloc, cases)?,
            },
        })
    }
}

/// An instruction (JVMS chapter 6): its opcode, whether it is written under `wide`, and its operands.
/// Under `wide` the opcode is the one that follows.
#[derive(Debug, PartialEq, Eq, PartialOrd, Ord, Drop)]
pub struct Insn {
    pub op: u8,
    pub wide: bool,
    pub arg: Arg,
}

impl Insn {
    /// An equal instruction. Only memory can be wanting.
    pub fn copy(&self, alloc: Global) -> Result<Insn, AllocError>
        ensures { IfOk result (λ made. made ≡ self.now) }
    {
        Ok(Insn {
            op: self.op,
            wide: self.wide,
            arg: self.arg.copy(alloc)?,
        })
    }
}
