ghost use Rattle.std.specs.Prelude.{◌≡◌, ◌<◌, ℕ, IsTrue, IfSome, IfNone, slice_get};
ghost use Rattle.std.specs.Option.{option_copied};
ghost use Rattle.jv_types.specs.Bodies.{rises_from};

use crate::copied::Copied;
use crate::copied_in::CopiedIn;
use crate::instruction::{Arg, Insn};
use crate::name::Name;
use crate::seq::Seq;
use std::alloc::{AllocError, Global};

/// An entry of a method's exception table (JVMS 4.7.3): offsets in bytes from the start of the code, and
/// the class that is caught, or none for all.
#[derive(Debug, PartialEq, Eq, PartialOrd, Ord, Drop)]
pub struct Handler {
    /// The first offset that is covered.
    pub start: u16,
    /// The offset after the last that is covered.
    pub end: u16,
    pub target: u16,
    pub catch: Option<Name>,
}

impl Copied for Handler {
    fn copy(&self) -> Result<Handler, AllocError> {
        let catch = match &self.catch {
            None => None,
            Some(name) => Some(name.copy()?),
        };
        Ok(Handler {
            start: self.start,
            end: self.end,
            target: self.target,
            catch,
        })
    }
}

impl CopiedIn for (u16, Insn) {
    fn copy_in(&self, alloc: Global) -> Result<(u16, Insn), AllocError> {
        Ok((self.0, self.1.copy(alloc)?))
    }
}

/// The code of a method (JVMS 4.7.3): each instruction with the offset at which it starts.
#[derive(Debug, PartialEq, Eq, PartialOrd, Ord, Drop)]
pub struct Body {
    /// How many words the operand stack may have.
    pub max_stack: u16,
    /// How many words the local variables take.
    pub max_locals: u16,
    /// How many bytes the code has.
    pub length: u16,
    pub insns: Seq<(u16, Insn)>,
    pub handlers: Seq<Handler>,
    /// Each instruction starts above the one before.
    ghost rising: { IsTrue (rises_from 0 insns) },
}

impl Body {
    ghost use Rattle.jv_types.specs.Bodies.{at_offset, targets_at, IsNextStart, IsStart};

    /// The instruction that starts at an offset. There is none exactly where none starts there.
    pub fn at(&self, pc: u16) -> Option<&Insn>
        ensures value { option_copied result ≡ at_offset pc self.now.insns }
    {
        let insns = self.insns.as_slice();
        match insns.binary_search_by_key(&pc, |row| row.0) {
            Ok(place) => Some(&insns[place].1),
            Err(_) => None,
        }
    }

    /// The least offset above this one at which an instruction starts.
    pub fn next(&self, pc: u16) -> Option<u16>
        ensures least { IfSome result (IsNextStart pc self.now.insns) }
        ensures none { IfNone result ((start : ℕ) → pc < start → IsStart self.now.insns start → ⊥) }
    {
        let insns = self.insns.as_slice();
        let place = insns.partition_point(|row| row.0 <= pc);
        Some(insns.get(place)?.0)
    }

    /// The jump target with this number of the instruction at an offset: of a switch the default first,
    /// and then in written order. There is none exactly where the instruction has fewer, or where no
    /// instruction starts there.
    pub fn target(&self, pc: u16, i: usize) -> Option<u16>
        ensures { result ≡ slice_get (targets_at pc self.now.insns) i }
    {
        match &self.at(pc)?.arg {
            Arg::Jump(target) => [*target].get(i).copied(),
            Arg::Table {
                default,
                targets,
                ..
            } => match i.checked_sub(1) {
                None => Some(*default),
                Some(case) => targets.as_slice().get(case).copied(),
            },
            Arg::Lookup { default, cases } => match i.checked_sub(1) {
                None => Some(*default),
                Some(case) => Some(cases.as_slice().get(case)?.1),
            },
            _ => None,
        }
    }
}

impl Copied for Body {
    fn copy(&self) -> Result<Body, AllocError> {
        Ok(Body {
            max_stack: self.max_stack,
            max_locals: self.max_locals,
            length: self.length,
            insns: self.insns.copy_in(self.insns.allocator())?,
            handlers: self.handlers.copy()?,
        })
    }
}
