ghost use Rattle.std.specs.Prelude.{◌≡◌, ℕ, List, IfOk, IfErr};
ghost use Rattle.jv_world.specs.Worlds.{AreNumbered, IsAbsent, IsWorld};
ghost use Rattle.av_hierarchy.specs.Hierarchy.{HaveDistinctMethods, PassesHierarchy};
ghost use Rattle.av_hierarchy.specs.Refused.{IsUnsound};

use crate::least::least_over_final;
use crate::refusal::Unsound;
use jv_types::{Copied, Rule, Shape};
use jv_world::{HierRefusal, World};
use std::alloc::Global;

/// The world of these classes, of which each supertype is there. It is refused exactly where a class is its own proper
/// supertype, or else has a supertype of the wrong kind, or else a class of the application has a method that overrides
/// a final one; each time at the least name in bytes.
pub fn whole_world(alloc: Global, shapes: Vec<Shape>) -> Result<World, Unsound>
    requires numbered { AreNumbered shapes.items }
    requires there { (name : List ℕ) → ¬ IsAbsent shapes.items name }
    requires distinct { HaveDistinctMethods shapes.items }
    ensures built { IfOk result (λ world. world ≡ shapes.items) }
    ensures world { IfOk result IsWorld }
    ensures passes { IfOk result PassesHierarchy }
    ensures refused { IfErr result (IsUnsound shapes.items) }
{
    let world = match World::build(alloc, shapes) {
        Ok(world) => world,
        Err(HierRefusal::Missing(_)) => unreachable!(),
        Err(HierRefusal::Circular(name)) => {
            return Err(Unsound::At {
                rule: Rule::Circular,
                name,
            });
        }
        Err(HierRefusal::SuperKind(name)) => {
            return Err(Unsound::At {
                rule: Rule::SuperKind,
                name,
            });
        }
        Err(HierRefusal::Memory) => return Err(Unsound::Memory),
    };
    match least_over_final(&world) {
        None => Ok(world),
        Some(name) => Err(Unsound::At {
            rule: Rule::FinalOverridden,
            name: name.copy()?,
        }),
    }
}
