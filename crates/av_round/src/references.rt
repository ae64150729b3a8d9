ghost use Rattle.std.specs.Prelude.{◌≡◌, OnOk};
ghost use Rattle.std.specs.Ordering.{nat_cmp};
ghost use Rattle.std.specs.Cmp.Lexicographic.{slice_cmp};
ghost use Rattle.jv_fix.specs.Order.{IsSet};
ghost use Rattle.av_named.specs.Appending.{Appends, OfEach};
ghost use Rattle.av_tables.specs.Steps.{known};
ghost use Rattle.av_round.specs.Seeds.{ArgFinds, BodyFinds, FieldFound, MethodFound, RowFinds};

use av_collected::MethodBody;
use av_conditions::{resolved_call, resolved_field};
use av_forcing::{RoundFact, push_fact};
use av_tables::{Classes, place_of};
use jv_resolve::references_resolve_to_one;
use jv_types::{Arg, FieldRef, Insn, MethodRef};
use jv_world::World;
use std::alloc::{AllocError, Global};

/// Adds the library field to which a reference resolves, if there is one.
fn push_field(
    alloc: Global,
    world: &World,
    classes: &Classes,
    r: &FieldRef,
    out: &mut Vec<RoundFact>,
) -> Result<(), AllocError>
    requires { IsSet (slice_cmp nat_cmp) classes.now.names.items }
    ensures { OnOk result (Appends (FieldFound world.now (known classes.now) r.now) out.old.items out.new.items) }
{
    references_resolve_to_one();
    let Some(f) = resolved_field(alloc, world, r)? else {
        return Ok(());
    };
    match place_of(classes.names.as_slice(), &world.shape(f.class).name) {
        None => Ok(()),
        Some(class) => push_fact(RoundFact::Field(class, f.index), out),
    }
}

/// Adds the library method to which a reference resolves, if there is one.
fn push_method(
    alloc: Global,
    world: &World,
    classes: &Classes,
    r: &MethodRef,
    out: &mut Vec<RoundFact>,
) -> Result<(), AllocError>
    requires { IsSet (slice_cmp nat_cmp) classes.now.names.items }
    ensures { OnOk result (Appends (MethodFound world.now (known classes.now) r.now) out.old.items out.new.items) }
{
    references_resolve_to_one();
    let Some(m) = resolved_call(alloc, world, r)? else {
        return Ok(());
    };
    match place_of(classes.names.as_slice(), &world.shape(m.class).name) {
        None => Ok(()),
        Some(class) => push_fact(RoundFact::Method(class, m.index), out),
    }
}

/// Adds the library member to which the reference among operands resolves, if there is one.
fn push_member(
    alloc: Global,
    world: &World,
    classes: &Classes,
    arg: &Arg,
    out: &mut Vec<RoundFact>,
) -> Result<(), AllocError>
    requires { IsSet (slice_cmp nat_cmp) classes.now.names.items }
    ensures { OnOk result (Appends (ArgFinds world.now (known classes.now) arg.now) out.old.items out.new.items) }
{
    match arg {
        Arg::Field(r) => push_field(alloc, world, classes, r, out),
        Arg::Method(r) => push_method(alloc, world, classes, r, out),
        _ => Ok(()),
    }
}

/// Adds the library members to which the references of these instructions resolve.
fn push_members(
    alloc: Global,
    world: &World,
    classes: &Classes,
    rows: &[(u16, Insn)],
    out: &mut Vec<RoundFact>,
) -> Result<(), AllocError>
    requires { IsSet (slice_cmp nat_cmp) classes.now.names.items }
    ensures { OnOk result (Appends (OfEach (RowFinds world.now (known classes.now)) rows.now) out.old.items out.new.items) }
{
    for row in rows {
        push_member(alloc, world, classes, &row.1.arg, out)?;
    }
    Ok(())
}

/// Adds the library members to which the references of these codes resolve, where the classes that they name are
/// whole.
pub fn push_referenced(
    alloc: Global,
    world: &World,
    classes: &Classes,
    bodies: &[MethodBody],
    out: &mut Vec<RoundFact>,
) -> Result<(), AllocError>
    requires { IsSet (slice_cmp nat_cmp) classes.now.names.items }
    ensures { OnOk result (Appends (OfEach (BodyFinds world.now (known classes.now)) bodies.now) out.old.items out.new.items) }
{
    for method in bodies {
        push_members(alloc, world, classes, method.body.insns.as_slice(), out)?;
    }
    Ok(())
}
