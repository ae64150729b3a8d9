ghost use Rattle.std.specs.Prelude.{◌≡◌, ◌<◌, IfOk};
ghost use Rattle.jv_fix.specs.Facts.{IsDerived, IsLeast};
ghost use Rattle.jv_fix.specs.Worklist.{AreOf};
ghost use Rattle.av_collected.specs.Conditions.{AreGiven};
ghost use Rattle.av_collected.specs.Libraries.{IsLibrary};
ghost use Rattle.av_forcing.specs.Forcing.{Forces};
ghost use Rattle.av_round.specs.Listing.{AreItems};

use crate::class_items::ClassItems;
use crate::listing::entries_of;
use crate::seeds::seeds_of;
use crate::whole::whole_of;
use av_collected::MethodBody;
use av_forcing::{RoundFact, RoundRules};
use av_named::application_names;
use av_tables::{ReadFile, tables_of};
use av_whole::worlds_are_whole;
use jv_fix::{CloseStop, Found, Steps, close};
use jv_two_worlds::{
    fields_resolve_alike, interface_methods_resolve_alike, methods_resolve_alike, worlds_stand_in,
};
use jv_types::{Name, Seq, Shape};
use std::alloc::{AllocError, Global};
use std::marker::Brand;
use std::sync::ledger::{Blank, Ledger};

/// What follows by the rules from these facts. Nobody counts the steps. Only memory can be wanting.
fn closed<L: Ledger>(
    alloc: Global,
    blank: Blank,
    rules: &RoundRules,
    seeds: &[RoundFact],
) -> Result<Found<RoundFact>, AllocError>
    requires name { blank.name ≡ L.name }
    requires parts { blank.parts ≡ L.parts }
    requires some { 0 < blank.parts }
    ensures least { IfOk result (IsLeast (Forces rules.now) seeds.now) }
    ensures derived { IfOk result (AreOf (IsDerived (Forces rules.now) seeds.now)) }
{
    let mut steps = Steps::<L>::new(blank);
    match close(alloc, rules, seeds, u64::MAX, &mut steps) {
        Ok(found) => Ok(found),
        Err(CloseStop::Memory) => Err(AllocError),
        Err(CloseStop::TooMany) => unreachable!(),
    }
}

/// What is collected over the files that were read, in rising order of the classes' names. Only memory can be wanting,
/// which also counts as wanting past 2^32 classes.
pub fn collected_over(
    alloc: Global,
    app: &[Shape],
    maps: &[Name],
    bodies: &[MethodBody],
    files: &[ReadFile],
) -> Result<Seq<ClassItems>, AllocError>
    requires given { AreGiven (record { shapes = app.now; maps = maps.now; bodies = bodies.now }) }
    requires library { IsLibrary files.now }
    ensures { IfOk result (AreItems (record { shapes = app.now; maps = maps.now; bodies = bodies.now }) files.now) }
{
    worlds_are_whole();
    worlds_stand_in();
    fields_resolve_alike();
    methods_resolve_alike();
    interface_methods_resolve_alike();
    let named = application_names(alloc, app, maps, bodies)?;
    let tables = tables_of(alloc, app, named.as_slice(), files)?;
    let world = whole_of(alloc, app, &tables.classes)?;
    let seeds = seeds_of(
        alloc,
        app,
        named.as_slice(),
        bodies,
        &world,
        &tables.classes,
    )?;
    let rules = RoundRules::new(tables);
    let found = closed::<Brand>(alloc, Blank::new(1), &rules, seeds.as_slice())?;
    let entries = entries_of(alloc, rules.classes(), &found)?;
    Ok(Seq::from_vec(entries))
}
