ghost use Rattle.std.specs.Prelude.{◌≡◌, ◌<◌, ◌↔◌, length, IsTrue};
ghost use Rattle.jv_types.specs.declared.ids.MethodId.{MethodId};
ghost use Rattle.jv_resolve.specs.Members.{IsPackagePrivate, HasMethod};
ghost use Rattle.jv_resolve.specs.Overriding.{IsOpenTo, OverridesDirectly, HasMiddle, HasMiddleAbove, Overrides};

use crate::flags::{is_inheritable, is_private, is_protected, is_public};
use crate::members::{is_method_called, method_shape};
use crate::packages::are_in_one_package;
use jv_types::{Access, ClassId, MethodId};
use jv_world::World;

/// Whether a member is neither public, protected nor private.
pub fn is_package_private(access: Access) -> bool
    ensures { IsTrue result ↔ IsPackagePrivate access }
{
    !is_public(access) && !is_protected(access) && !is_private(access)
}

/// Whether methods of the class `a` may override one of the class `b` with these flags (JVMS 5.4.5).
fn is_open_to(world: &World, a: ClassId, b: ClassId, flags: Access) -> bool
    requires a_here { a.number < length world.now }
    requires b_here { b.number < length world.now }
    ensures { IsTrue result ↔ IsOpenTo world.now a.number b.number flags }
{
    is_public(flags)
        || is_protected(flags)
        || (is_package_private(flags) && are_in_one_package(world, a, b))
}

/// Whether `a` overrides `b` without a third method between them.
fn overrides_directly(world: &World, a: MethodId, b: MethodId) -> bool
    requires a_here { HasMethod world.now a }
    requires b_here { HasMethod world.now b }
    ensures { IsTrue result ↔ OverridesDirectly world.now a b }
{
    let method = method_shape(world, a);
    let other = method_shape(world, b);
    is_method_called(method, &other.name, &other.desc)
        && is_inheritable(method)
        && is_inheritable(other)
        && world.sub(a.class, b.class)
        && is_open_to(world, a.class, b.class, other.flags)
}

/// Whether a method stands between the two: `a` overrides it, and it overrides `b`.
fn is_middle(world: &World, middle: MethodId, a: MethodId, b: MethodId) -> bool
    requires middle_here { HasMethod world.now middle }
    requires a_here { HasMethod world.now a }
    requires b_here { HasMethod world.now b }
    ensures { IsTrue result ↔ (OverridesDirectly world.now a middle × OverridesDirectly world.now middle b) }
{
    overrides_directly(world, a, middle) && overrides_directly(world, middle, b)
}

/// Whether a method of the class stands between the two.
fn has_middle(world: &World, c: ClassId, a: MethodId, b: MethodId) -> bool
    requires c_here { c.number < length world.now }
    requires a_here { HasMethod world.now a }
    requires b_here { HasMethod world.now b }
    ensures { IsTrue result ↔ HasMiddle world.now a b c.number }
{
    let methods = world.shape(c).methods.as_slice();
    for (index, _method) in methods.iter().enumerate() {
        let middle = MethodId {
            class: c,
            index: index as u16,
        };
        if is_middle(world, middle, a, b) {
            return true;
        }
    }
    false
}

/// Whether a method of a class from `a`'s on upwards stands between the two.
fn is_over_middle(world: &World, a: MethodId, b: MethodId) -> bool
    requires a_here { HasMethod world.now a }
    requires b_here { HasMethod world.now b }
    ensures { IsTrue result ↔ HasMiddleAbove world.now a b }
{
    if has_middle(world, a.class, a, b) {
        return true;
    }
    for c in world.proper_supers(a.class) {
        if has_middle(world, *c, a, b) {
            return true;
        }
    }
    false
}

/// Whether `a` overrides `b` (JVMS 5.4.5): the two are the same; or `a` is declared in a subclass with the
/// same name and descriptor, neither is private or static, and `b` is public, protected, or package-private
/// in the same package; or so through a third method.
pub fn overrides(world: &World, a: MethodId, b: MethodId) -> bool
    requires a_here { HasMethod world.now a }
    requires b_here { HasMethod world.now b }
    ensures { IsTrue result ↔ Overrides world.now a b }
{
    if a == b {
        return true;
    }
    if overrides_directly(world, a, b) {
        return true;
    }
    is_package_private(method_shape(world, b).flags) && is_over_middle(world, a, b)
}
