ghost use Rattle.std.specs.Prelude.{◌≡◌, ℕ, ◌<◌, ◌↔◌, length, IsTrue, IfSome, IfNone, Contains};
ghost use Rattle.jv_world.specs.Worlds.{IsNamed, HasSuper};
ghost use Rattle.jv_resolve.specs.DepthFirst.{LeadsUpTo, IsFirstLeading, IsFirstWay, IsFirst};
ghost use Rattle.jv_resolve.specs.Steps.Targets.{IsTarget, AreClasses, NoneLeads};

use jv_types::{ClassId, Name};
use jv_world::World;

/// Whether a class is among the targets.
fn is_target(targets: &[ClassId], c: ClassId) -> bool
    ensures { IsTrue result ↔ IsTarget targets.now c.number }
{
    for target in targets {
        if target.number == c.number {
            return true;
        }
    }
    false
}

/// Whether a class, or one above it, is among the targets.
fn leads(world: &World, c: ClassId, targets: &[ClassId]) -> bool
    requires here { c.number < length world.now }
    requires targets_here { AreClasses world.now targets.now }
    ensures { IsTrue result ↔ LeadsUpTo world.now (IsTarget targets.now) c.number }
{
    for target in targets {
        if world.sub(c, *target) {
            return true;
        }
    }
    false
}

/// The class of this name, where it or one above it is among the targets.
fn leading(world: &World, name: &Name, targets: &[ClassId]) -> Option<ClassId>
    requires { AreClasses world.now targets.now }
    ensures found { IfSome result (λ d. IsNamed world.now d.number name.now × LeadsUpTo world.now (IsTarget targets.now) d.number) }
    ensures none { IfNone result ((d : ℕ) → IsNamed world.now d name.now → ¬ LeadsUpTo world.now (IsTarget targets.now) d) }
{
    let Some(d) = world.class(name) else {
        return None;
    };
    if leads(world, d, targets) {
        return Some(d);
    }
    None
}

/// The first of the names whose class, or one above it, is among the targets: that class.
fn leading_of(world: &World, names: &[Name], targets: &[ClassId]) -> Option<ClassId>
    requires { AreClasses world.now targets.now }
    ensures found { IfSome result (λ d. IsFirstLeading world.now (IsTarget targets.now) names.now d.number) }
    ensures none { IfNone result (NoneLeads world.now (IsTarget targets.now) names.now) }
{
    for name in names {
        if let Some(d) = leading(world, name, targets) {
            return Some(d);
        }
    }
    None
}

/// The first of the direct supers of a class, its superinterfaces before its superclass, from which one goes
/// up to a target.
fn first_way(world: &World, c: ClassId, targets: &[ClassId]) -> Option<ClassId>
    requires here { c.number < length world.now }
    requires targets_here { AreClasses world.now targets.now }
    ensures found { IfSome result (λ d. IsFirstWay world.now (IsTarget targets.now) c.number d.number) }
    ensures none { IfNone result ((d : ℕ) → HasSuper world.now c.number d → ¬ LeadsUpTo world.now (IsTarget targets.now) d) }
{
    let shape = world.shape(c);
    if let Some(d) = leading_of(world, shape.interfaces.as_slice(), targets) {
        return Some(d);
    }
    match &shape.parent {
        None => None,
        Some(name) => leading(world, name, targets),
    }
}

/// The target that a search depth first finds first.
pub fn first_target(world: &World, c: ClassId, targets: &[ClassId]) -> Option<ClassId>
    requires here { c.number < length world.now }
    requires targets_here { AreClasses world.now targets.now }
    ensures found { IfSome result (λ d. IsFirst world.now (IsTarget targets.now) c.number d.number) }
    ensures none { IfNone result (¬ LeadsUpTo world.now (IsTarget targets.now) c.number) }
{
    let mut class = c;
    let count = world.shapes().len();
    for links in 0..count {
        if is_target(targets, class) {
            return Some(class);
        }
        match first_way(world, class, targets) {
            None => return None,
            Some(next) => class = next,
        }
    }
    unreachable!()
}
