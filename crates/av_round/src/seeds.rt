ghost use Rattle.std.specs.Prelude.{◌≡◌, ◌↔◌, ◌⊎◌, ℕ, true, false, List, Contains, IfOk, OnOk};
ghost use Rattle.std.specs.Ordering.{nat_cmp};
ghost use Rattle.std.specs.Cmp.Lexicographic.{slice_cmp};
ghost use Rattle.jv_fix.specs.Order.{IsSet};
ghost use Rattle.av_named.specs.Appending.{Appends, OfEach};
ghost use Rattle.av_tables.specs.Steps.{AreSmall, known};
ghost use Rattle.av_forcing.specs.declared.fact.RoundFact.{RoundFact as FactValue};
ghost use Rattle.av_forcing.specs.Forcing.{Numbered};
ghost use Rattle.av_round.specs.Seeds.{BodyFinds, CoreMethod, IsSeed, SuperOf};

use crate::core_methods::push_core_methods;
use crate::references::push_referenced;
use av_collected::MethodBody;
use av_forcing::{RoundFact, push_classes};
use av_named::names_of_supers;
use av_tables::Classes;
use jv_types::{Name, Shape};
use jv_world::World;
use std::alloc::{AllocError, Global};

/// Adds what these classes name as supertypes.
fn names_of_all_supers(app: &[Shape], out: &mut Vec<Name>) -> Result<(), AllocError>
    ensures { OnOk result (Appends (OfEach SuperOf app.now) out.old.items out.new.items) }
{
    for shape in app {
        names_of_supers(shape, out)?;
    }
    Ok(())
}

/// What these classes name as supertypes. Only memory can be wanting.
fn all_supers(alloc: Global, app: &[Shape]) -> Result<Vec<Name>, AllocError>
    ensures { IfOk result (λ names. (name : List ℕ) → Contains names.items name ↔ OfEach SuperOf app.now name) }
{
    let mut names = Vec::new(alloc);
    names_of_all_supers(app, &mut names)?;
    Ok(names)
}

/// Adds the library classes that the application names, and those above its classes by one step.
fn push_named(
    alloc: Global,
    app: &[Shape],
    named: &[Name],
    classes: &Classes,
    out: &mut Vec<RoundFact>,
) -> Result<(), AllocError>
    requires { IsSet (slice_cmp nat_cmp) classes.now.names.items }
    ensures { OnOk result (Appends (λ fact. OfEach (Numbered (known classes.now) false) named.now fact
        ⊎ ((name : List ℕ) × OfEach SuperOf app.now name × Numbered (known classes.now) true name fact)) out.old.items out.new.items) }
{
    let supers = all_supers(alloc, app)?;
    push_classes(classes, named, false, out)?;
    push_classes(classes, supers.as_slice(), true, out)
}

/// Adds the library members to which references of the application resolve, and those that every world has.
fn push_all_members(
    alloc: Global,
    bodies: &[MethodBody],
    world: &World,
    classes: &Classes,
    out: &mut Vec<RoundFact>,
) -> Result<(), AllocError>
    requires rising { IsSet (slice_cmp nat_cmp) classes.now.names.items }
    requires small { AreSmall classes.now.files.now }
    ensures { OnOk result (Appends (λ fact. OfEach (BodyFinds world.now (known classes.now)) bodies.now fact ⊎ CoreMethod (known classes.now) fact) out.old.items out.new.items) }
{
    push_referenced(alloc, world, classes, bodies, out)?;
    push_core_methods(alloc, classes, out)
}

/// What is collected from nothing. Only memory can be wanting.
pub fn seeds_of(
    alloc: Global,
    app: &[Shape],
    named: &[Name],
    bodies: &[MethodBody],
    world: &World,
    classes: &Classes,
) -> Result<Vec<RoundFact>, AllocError>
    requires rising { IsSet (slice_cmp nat_cmp) classes.now.names.items }
    requires small { AreSmall classes.now.files.now }
    ensures { IfOk result (λ seeds. (fact : FactValue) → Contains seeds.items fact ↔ IsSeed world.now (known classes.now) app.now named.now bodies.now fact) }
{
    let mut seeds = Vec::new(alloc);
    push_named(alloc, app, named, classes, &mut seeds)?;
    push_all_members(alloc, bodies, world, classes, &mut seeds)?;
    Ok(seeds)
}
