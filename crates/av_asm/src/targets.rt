ghost use Rattle.std.specs.Prelude.{◌≡◌, ◌++◌, map, IfOk, OnOk};
ghost use Rattle.std.specs.List.{flat_map};
ghost use Rattle.jv_types.specs.Bodies.{arg_targets};
ghost use Rattle.av_asm.specs.Planning.{targets_in};
ghost use Rattle.av_asm.specs.Steps.{HasOffsets};

use jv_types::{Arg, Handler, Insn};
use std::alloc::{AllocError, Global};
use std::collections::BTreeSet;

/// Adds the targets of the cases of a lookupswitch at the end. Only memory can be wanting.
fn push_cases(targets: &mut Vec<u16>, cases: &[(i32, u16)]) -> Result<(), AllocError>
    ensures { OnOk result (targets.new.items ≡ targets.old.items ++ map (λ case. case.1) cases.now) }
{
    for case in cases {
        targets.push(case.1)?;
    }
    Ok(())
}

/// Adds the targets of an instruction at the end: of a switch the default first. Only memory can be wanting.
fn push_targets(targets: &mut Vec<u16>, arg: &Arg) -> Result<(), AllocError>
    ensures { OnOk result (targets.new.items ≡ targets.old.items ++ arg_targets arg.now) }
{
    match arg {
        Arg::Jump(target) => Ok(targets.push(*target)?),
        Arg::Table {
            default,
            targets: cases,
            ..
        } => {
            targets.push(*default)?;
            targets.extend_from_slice(cases.as_slice())
        }
        Arg::Lookup { default, cases } => {
            targets.push(*default)?;
            push_cases(targets, cases.as_slice())
        }
        Arg::Nothing
        | Arg::Local(_)
        | Arg::Small(_)
        | Arg::Inc(_, _)
        | Arg::Constant(_)
        | Arg::Class(_)
        | Arg::Field(_)
        | Arg::Method(_)
        | Arg::Dynamic
        | Arg::NewPrim(_)
        | Arg::Multi(_, _) => Ok(()),
    }
}

/// Adds the targets of instructions at the end. Only memory can be wanting.
fn push_jumps(targets: &mut Vec<u16>, insns: &[(u16, Insn)]) -> Result<(), AllocError>
    ensures { OnOk result (targets.new.items ≡ targets.old.items ++ flat_map (λ row. arg_targets row.1.arg) insns.now) }
{
    for row in insns {
        push_targets(targets, &row.1.arg)?;
    }
    Ok(())
}

/// Adds the targets of handlers at the end. Only memory can be wanting.
fn push_handled(targets: &mut Vec<u16>, handlers: &[Handler]) -> Result<(), AllocError>
    ensures { OnOk result (targets.new.items ≡ targets.old.items ++ map (λ handler. handler.target) handlers.now) }
{
    for handler in handlers {
        targets.push(handler.target)?;
    }
    Ok(())
}

/// The offsets to which instructions and handlers lead. Only memory can be wanting.
fn targets_in(
    alloc: Global,
    insns: &[(u16, Insn)],
    handlers: &[Handler],
) -> Result<Vec<u16>, AllocError>
    ensures { IfOk result (λ targets. targets.items ≡ targets_in insns.now handlers.now) }
{
    let mut targets = Vec::new(alloc);
    push_jumps(&mut targets, insns)?;
    push_handled(&mut targets, handlers)?;
    Ok(targets)
}

/// The set of these offsets. Only memory can be wanting.
fn set_of(alloc: Global, offsets: &[u16]) -> Result<BTreeSet<u16>, AllocError>
    ensures { IfOk result (λ set. HasOffsets set offsets.now) }
{
    let mut set = BTreeSet::new(alloc);
    for offset in offsets {
        set.insert(*offset)?;
    }
    Ok(set)
}

/// The set of the offsets to which instructions and handlers lead. Only memory can be wanting.
pub fn targets_of(
    alloc: Global,
    insns: &[(u16, Insn)],
    handlers: &[Handler],
) -> Result<BTreeSet<u16>, AllocError>
    ensures { IfOk result (λ set. HasOffsets set (targets_in insns.now handlers.now)) }
{
    let targets = targets_in(alloc, insns, handlers)?;
    set_of(alloc, targets.as_slice())
}
