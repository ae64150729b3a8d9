ghost use Rattle.std.specs.Prelude.{◌≡◌, ◌<◌, ◌↔◌, length, IsTrue, IfSome, IfNone};
ghost use Rattle.jv_types.specs.declared.ids.MethodId.{MethodId};
ghost use Rattle.jv_world.specs.Worlds.{IsWorld};
ghost use Rattle.jv_resolve.specs.Members.{HasMethod, IsInheritable, DeclaresMethod};
ghost use Rattle.jv_resolve.specs.Inheriting.{IsNearest, HasNone};
ghost use Rattle.jv_resolve.specs.Selecting.{IsSpecial};
ghost use Rattle.jv_resolve.specs.Steps.Wanted.{IsWanted, HasResolved};

use crate::flags::{is_inheritable, is_private, is_static};
use crate::members::{declared_method, method_shape};
use crate::overriding::overrides;
use jv_types::{ClassId, MethodDesc, MethodId, Name};
use jv_world::World;

/// Which methods of a name and descriptor end a search along superclasses.
#[derive(Clone, Copy)]
pub enum Wanted {
    /// Any.
    Declared,
    /// One that is neither private nor static.
    Inherited,
    /// Such a one that overrides this method.
    Overriding(MethodId),
    /// One that is not static, and not private unless it is this method.
    Special(MethodId),
}

/// Whether a method is neither private nor static.
pub fn is_inherited(world: &World, m: MethodId) -> bool
    requires { HasMethod world.now m }
    ensures { IsTrue result ↔ IsInheritable world.now m }
{
    is_inheritable(method_shape(world, m))
}

/// Whether `invokespecial` may run a method where it resolved another one.
fn is_special(world: &World, m: MethodId, resolved: MethodId) -> bool
    requires { HasMethod world.now m }
    ensures { IsTrue result ↔ IsSpecial world.now resolved m }
{
    let flags = method_shape(world, m).flags;
    !is_static(flags) && (!is_private(flags) || m == resolved)
}

/// Whether a method with the name and descriptor is wanted.
fn meets(world: &World, name: &Name, desc: &MethodDesc, m: MethodId, wanted: Wanted) -> bool
    requires declared { DeclaresMethod world.now name.now desc.now m }
    requires resolved { HasResolved world.now wanted }
    ensures { IsTrue result ↔ IsWanted world.now name.now desc.now wanted m }
{
    match wanted {
        Wanted::Declared => true,
        Wanted::Inherited => is_inherited(world, m),
        Wanted::Overriding(resolved) => { is_inherited(world, m) && overrides(world, m, resolved) }
        Wanted::Special(resolved) => is_special(world, m, resolved),
    }
}

/// The wanted method that a class itself declares, if it declares one.
pub fn wanted_method(
    world: &World,
    c: ClassId,
    name: &Name,
    desc: &MethodDesc,
    wanted: Wanted,
) -> Option<MethodId>
    requires here { c.number < length world.now }
    requires resolved { HasResolved world.now wanted }
    ensures found { IfSome result (λ m. (m.class ≡ c) × IsWanted world.now name.now desc.now wanted m) }
    ensures none { IfNone result ((m : MethodId) → m.class.number ≡ c.number → ¬ IsWanted world.now name.now desc.now wanted m) }
    ensures world { IsWorld world.now }
{
    let Some(m) = declared_method(world, c, name, desc) else {
        return None;
    };
    if meets(world, name, desc, m, wanted) {
        return Some(m);
    }
    None
}

/// The wanted method to which the fewest superclass links lead, if there is one.
pub fn nearest(
    world: &World,
    c: ClassId,
    name: &Name,
    desc: &MethodDesc,
    wanted: Wanted,
) -> Option<MethodId>
    requires here { c.number < length world.now }
    requires resolved { HasResolved world.now wanted }
    ensures found { IfSome result (IsNearest world.now (IsWanted world.now name.now desc.now wanted) c.number) }
    ensures none { IfNone result (HasNone world.now (IsWanted world.now name.now desc.now wanted) c.number) }
    ensures world { IsWorld world.now }
{
    let mut class = c;
    let count = world.shapes().len();
    for links in 0..count {
        if let Some(m) = wanted_method(world, class, name, desc, wanted) {
            return Some(m);
        }
        match world.superclass(class) {
            None => return None,
            Some(parent) => class = parent,
        }
    }
    unreachable!()
}
