ghost use Rattle.std.specs.Prelude.{◌↔◌, IsTrue, IfOk};
ghost use Rattle.av_insn_rules.specs.InsnRules.{IsResolved};

use crate::kinds::is_too_early;
use av_conditions::is_right_insn;
use jv_types::Insn;
use jv_world::World;
use std::alloc::{AllocError, Global};

/// Whether what an instruction names is found and of the right kind, and may be named in a class of this major
/// version. Only memory can be wanting.
pub fn is_resolved(
    alloc: Global,
    world: &World,
    major: u16,
    insn: &Insn,
) -> Result<bool, AllocError>
    ensures { IfOk result (λ right. IsTrue right ↔ IsResolved world.now major insn.now) }
{
    if is_too_early(major, insn) {
        return Ok(false);
    }
    is_right_insn(alloc, world, insn)
}
