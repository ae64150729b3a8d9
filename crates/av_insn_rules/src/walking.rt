ghost use Rattle.std.specs.Prelude.{◌<◌, length, IfOk, IfSome, IfNone};
ghost use Rattle.av_insn_rules.specs.InsnRules.{Everywhere, FailsFirst, FailsNowhere, IsFirstWithout, Keeps, insn_rules};

use crate::keeping::keeps;
use jv_types::{Body, ClassId, Rule};
use jv_world::World;
use std::alloc::{AllocError, Global};

/// The least offset of a code at which an instruction fails a rule.
fn first_without(
    alloc: Global,
    world: &World,
    from: ClassId,
    major: u16,
    rule: Rule,
    body: &Body,
) -> Result<Option<u16>, AllocError>
    requires { from.number < length world.now }
    ensures found { IfOk result (λ o. IfSome o (IsFirstWithout (Keeps world.now from.number major rule) body.now)) }
    ensures none { IfOk result (λ o. IfNone o (Everywhere (Keeps world.now from.number major rule) body.now)) }
{
    let insns = body.insns.as_slice();
    for row in insns {
        if !keeps(alloc, world, from, major, rule, &row.1)? {
            return Ok(Some(row.0));
        }
    }
    Ok(None)
}

/// The first rule on single instructions that a code of the class `from` fails, which has this major version, and the
/// least offset at which it does: that it has no subroutines, links nothing at run time, names what is found and of
/// the right kind, and what is accessible, and calls no reflection. Only memory can be wanting.
#[tactic(auto, using(crate::proofs::Ordering::fails_subroutine, crate::proofs::Ordering::fails_dynamic, crate::proofs::Ordering::fails_unresolved, crate::proofs::Ordering::fails_access, crate::proofs::Ordering::fails_reflection, crate::proofs::Ordering::fails_nowhere))]
pub fn first_failing(
    alloc: Global,
    world: &World,
    from: ClassId,
    major: u16,
    body: &Body,
) -> Result<Option<(Rule, u16)>, AllocError>
    requires { from.number < length world.now }
    ensures found { IfOk result (λ o. IfSome o (λ at. FailsFirst (Keeps world.now from.number major) insn_rules body.now at.0 at.1)) }
    ensures none { IfOk result (λ o. IfNone o (FailsNowhere (Keeps world.now from.number major) insn_rules body.now)) }
{
    if let Some(pc) = first_without(alloc, world, from, major, Rule::Subroutine, body)? {
        return Ok(Some((Rule::Subroutine, pc)));
    }
    if let Some(pc) = first_without(alloc, world, from, major, Rule::InvokeDynamic, body)? {
        return Ok(Some((Rule::InvokeDynamic, pc)));
    }
    if let Some(pc) = first_without(alloc, world, from, major, Rule::Unresolved, body)? {
        return Ok(Some((Rule::Unresolved, pc)));
    }
    if let Some(pc) = first_without(alloc, world, from, major, Rule::NoAccess, body)? {
        return Ok(Some((Rule::NoAccess, pc)));
    }
    if let Some(pc) = first_without(alloc, world, from, major, Rule::Reflection, body)? {
        return Ok(Some((Rule::Reflection, pc)));
    }
    Ok(None)
}
