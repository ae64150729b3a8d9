ghost use Rattle.std.specs.Prelude.{◌↔◌, ◌<◌, length, IsTrue, IfOk};
ghost use Rattle.av_insn_rules.specs.InsnRules.{Keeps};

use crate::accessible::are_accessible;
use crate::kinds::{is_dynamic, is_subroutine};
use crate::reflection::calls_reflection;
use crate::resolved::is_resolved;
use jv_types::{ClassId, Insn, Rule};
use jv_world::World;
use std::alloc::{AllocError, Global};

/// Whether an instruction of the class `from`, which has this major version, keeps a rule. Only memory can be
/// wanting.
pub fn keeps(
    alloc: Global,
    world: &World,
    from: ClassId,
    major: u16,
    rule: Rule,
    insn: &Insn,
) -> Result<bool, AllocError>
    requires { from.number < length world.now }
    ensures { IfOk result (λ kept. IsTrue kept ↔ Keeps world.now from.number major rule insn.now) }
{
    match rule {
        Rule::Subroutine => Ok(!is_subroutine(insn)),
        Rule::InvokeDynamic => Ok(!is_dynamic(insn)),
        Rule::Unresolved => is_resolved(alloc, world, major, insn),
        Rule::NoAccess => are_accessible(alloc, world, from, &insn.arg),
        Rule::Reflection => Ok(!calls_reflection(alloc, world, insn)?),
        _ => Ok(true),
    }
}
