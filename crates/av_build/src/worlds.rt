ghost use Rattle.std.specs.Prelude.{◌≡◌, ◌++◌, IfOk, IfErr, OnOk};
ghost use Rattle.jv_world.specs.Worlds.{IsWorld};
ghost use Rattle.av_given.specs.Givens.{application_of};
ghost use Rattle.av_hierarchy.specs.Hierarchy.{PassesHierarchy};
ghost use Rattle.av_program.specs.declared.accept_stop.AcceptStop.TheVariants.{Memory};
ghost use Rattle.av_stages.specs.Stages.{IsCollectedOfSome, IsKnown, OrMemory, StopsAtClass};
ghost use Rattle.av_stops.specs.FirstStops.{program_world, whole_world as whole_classes};

use crate::laws::{programs_have_worlds, whole_classes_are_complete};
use av_collected::Collected;
use av_hierarchy::{Unsound, whole_world};
use av_program::AcceptStop;
use av_stages::AppGiven;
use jv_types::{Copied, Refusal, RulePlace, Shape};
use jv_world::{HierRefusal, World};
use std::alloc::{AllocError, Global};

/// Two lists of classes, one behind the other. Only memory can be wanting.
fn joined(front: Vec<Shape>, behind: Vec<Shape>) -> Result<Vec<Shape>, AllocError>
    ensures { IfOk result (λ all. all.items ≡ front.items ++ behind.items) }
{
    let mut all = front;
    let mut more = behind;
    all.append(&mut more)?;
    Ok(all)
}

/// That the whole classes pass the rules on supertypes (JVMS 4.1, 5.3.5, 5.4.5). So they are a world.
pub fn check_supertypes(alloc: Global, app: &AppGiven, found: &Collected) -> Result<(), AcceptStop>
    requires known { IsKnown app.now.files.items (application_of app.now.given) }
    requires collected { IsCollectedOfSome (application_of app.now.given) found.now }
    ensures world { OnOk result (IsWorld (whole_classes (application_of app.now.given) found.now)) }
    ensures passes { OnOk result (PassesHierarchy (whole_classes (application_of app.now.given) found.now)) }
    ensures stopped { IfErr result (OrMemory (StopsAtClass (whole_classes (application_of app.now.given) found.now))) }
{
    whole_classes_are_complete();
    let front = app.given.shapes.copy()?;
    let behind = found.full.copy()?;
    let shapes = joined(front.into_vec(), behind.into_vec())?;
    match whole_world(alloc, shapes) {
        Ok(_) => Ok(()),
        Err(Unsound::At { rule, name }) => Err(AcceptStop::Refused(Refusal {
            rule,
            place: RulePlace::Class(name),
        })),
        Err(Unsound::Memory) => Err(AcceptStop::Memory),
    }
}

/// The world of the program. Only memory can be wanting, since the whole classes are a world.
pub fn world_of(alloc: Global, app: &AppGiven, found: Collected) -> Result<World, AllocError>
    requires known { IsKnown app.now.files.items (application_of app.now.given) }
    requires collected { IsCollectedOfSome (application_of app.now.given) found }
    requires world { IsWorld (whole_classes (application_of app.now.given) found) }
    ensures { IfOk result (λ world. world ≡ program_world (application_of app.now.given) found) }
{
    programs_have_worlds();
    let front = app.given.shapes.copy()?;
    let shapes = joined(front.into_vec(), found.shapes.into_vec())?;
    match World::build(alloc, shapes) {
        Ok(world) => Ok(world),
        Err(HierRefusal::Memory) => Err(AllocError),
        Err(HierRefusal::Missing(_)) => unreachable!(),
        Err(HierRefusal::Circular(_)) => unreachable!(),
        Err(HierRefusal::SuperKind(_)) => unreachable!(),
    }
}
