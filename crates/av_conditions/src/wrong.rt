ghost use Rattle.std.specs.Prelude.{◌≡◌, ◌↔◌, IsTrue, IfOk, IfSome, IfNone};
ghost use Rattle.av_conditions.specs.RightReferences.{HasRightReferences, IsFirstWrong, IsRightInsn};

use crate::operands::are_right_operands;
use jv_types::{Body, Insn};
use jv_world::World;
use std::alloc::{AllocError, Global};

/// Whether the reference of an instruction, if it has one, resolves and is of the right kind: static or
/// instance, class or interface, and for `new` a class that is neither abstract nor an interface. Access is not
/// asked. Only memory can be wanting.
pub fn is_right_insn(alloc: Global, world: &World, insn: &Insn) -> Result<bool, AllocError>
    ensures { IfOk result (λ right. IsTrue right ↔ IsRightInsn world.now insn.now) }
{
    are_right_operands(alloc, world, insn.op, &insn.arg)
}

/// The least offset of a code at which the reference of an instruction does not resolve or is of the wrong
/// kind. There is none exactly where each reference resolves and is of the right kind. Only memory can be
/// wanting.
pub fn first_wrong(alloc: Global, world: &World, body: &Body) -> Result<Option<u16>, AllocError>
    ensures found { IfOk result (λ o. IfSome o (IsFirstWrong world.now body.now)) }
    ensures none { IfOk result (λ o. IfNone o (HasRightReferences world.now body.now)) }
{
    let insns = body.insns.as_slice();
    for row in insns {
        if !is_right_insn(alloc, world, &row.1)? {
            return Ok(Some(row.0));
        }
    }
    Ok(None)
}
