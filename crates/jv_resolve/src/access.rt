ghost use Rattle.std.specs.Prelude.{◌≡◌, ◌<◌, ◌↔◌, ◌⊎◌, length, codes, IsTrue};
ghost use Rattle.jv_world.specs.Worlds.{IsSubclass};
ghost use Rattle.jv_resolve.specs.Members.{HasMethod, HasField};
ghost use Rattle.jv_resolve.specs.References.{IsArray};
ghost use Rattle.jv_resolve.specs.Access.{IsPublicClass, IsClassAccessible, IsInLine, NamesInLine, IsProtectedAccess, HasAccess, IsFieldAccessible, IsMethodAccessible};

use crate::flags::{is_private, is_protected, is_public, is_static};
use crate::members::{field_shape, method_shape};
use crate::overriding::is_package_private;
use crate::packages::are_in_one_package;
use crate::references::{is_array, is_clone, named_class};
use jv_types::{Access, ClassId, FieldId, FieldRef, MethodId, MethodRef, Name, RefType};
use jv_world::World;

/// Whether a class is public (JVMS table 4.1-A).
fn is_public_class(world: &World, c: ClassId) -> bool
    requires { c.number < length world.now }
    ensures { IsTrue result ↔ IsPublicClass world.now c.number }
{
    is_public(world.shape(c).flags)
}

/// Whether the class `c` is accessible from the class `from` (JVMS 5.4.4): it is public, or the two are of one
/// package. It takes no memory.
pub fn is_class_accessible(world: &World, from: ClassId, c: ClassId) -> bool
    requires from_here { from.number < length world.now }
    requires c_here { c.number < length world.now }
    ensures exact { IsTrue result ↔ IsClassAccessible world.now from.number c.number }
{
    is_public_class(world, c) || are_in_one_package(world, from, c)
}

/// Whether one of the two classes is the other or a subclass of it.
fn are_in_line(world: &World, c: ClassId, d: ClassId) -> bool
    requires c_here { c.number < length world.now }
    requires d_here { d.number < length world.now }
    ensures { IsTrue result ↔ (IsSubclass world.now c.number d.number ⊎ IsSubclass world.now d.number c.number) }
{
    world.is_subclass(c, d) || world.is_subclass(d, c)
}

/// Whether a name is that of a class, or of a subclass or a superclass of it, by superclass links.
fn is_in_line(world: &World, c: ClassId, name: &Name) -> bool
    requires { c.number < length world.now }
    ensures { IsTrue result ↔ IsInLine world.now c.number name.now }
{
    match world.class(name) {
        None => false,
        Some(d) => are_in_line(world, c, d),
    }
}

/// Whether a type names a class in line with another.
fn names_in_line(world: &World, c: ClassId, type_of: &RefType) -> bool
    requires { c.number < length world.now }
    ensures { IsTrue result ↔ NamesInLine world.now c.number type_of.now }
{
    match named_class(type_of) {
        None => false,
        Some(name) => is_in_line(world, c, name),
    }
}

/// Whether a protected member is accessible (JVMS 5.4.4).
fn is_protected_access(
    world: &World,
    from: ClassId,
    in_line: bool,
    declarer: ClassId,
    flags: Access,
) -> bool
    requires from_here { from.number < length world.now }
    requires declarer_here { declarer.number < length world.now }
    ensures { IsTrue result ↔ IsProtectedAccess world.now from.number (IsTrue in_line) declarer.number flags }
{
    are_in_one_package(world, from, declarer)
        || (world.is_subclass(from, declarer) && (is_static(flags) || in_line))
}

/// Whether a member is accessible (JVMS 5.4.4).
fn has_access(world: &World, from: ClassId, in_line: bool, declarer: ClassId, flags: Access) -> bool
    requires from_here { from.number < length world.now }
    requires declarer_here { declarer.number < length world.now }
    ensures { IsTrue result ↔ HasAccess world.now from.number (IsTrue in_line) declarer.number flags }
{
    if is_public(flags) {
        return true;
    }
    if is_protected(flags) && is_protected_access(world, from, in_line, declarer, flags) {
        return true;
    }
    if is_package_private(flags) && are_in_one_package(world, from, declarer) {
        return true;
    }
    is_private(flags) && from.number == declarer.number
}

/// Whether the field `f`, to which the reference resolves, is accessible from the class `from` (JVMS 5.4.4).
/// It takes no memory.
pub fn is_field_accessible(world: &World, from: ClassId, r: &FieldRef, f: FieldId) -> bool
    requires from_here { from.number < length world.now }
    requires here { HasField world.now f }
    ensures exact { IsTrue result ↔ IsFieldAccessible world.now from.number r.now f }
{
    let in_line = is_in_line(world, from, &r.class);
    has_access(world, from, in_line, f.class, field_shape(world, f).flags)
}

/// Whether the reference is to the method by which an array is copied (JVMS 10.7).
fn is_array_clone(r: &MethodRef) -> bool
    ensures { IsTrue result ↔ (IsArray r.now.class × (r.now.name ≡ codes "clone")) }
{
    is_array(&r.class) && is_clone(&r.name)
}

/// Whether the method `m`, to which the reference resolves, is accessible from the class `from` (JVMS 5.4.4).
/// The method `clone` of an array counts as public (JVMS 10.7). It takes no memory.
pub fn is_method_accessible(world: &World, from: ClassId, r: &MethodRef, m: MethodId) -> bool
    requires from_here { from.number < length world.now }
    requires here { HasMethod world.now m }
    ensures exact { IsTrue result ↔ IsMethodAccessible world.now from.number r.now m }
{
    if is_array_clone(r) {
        return true;
    }
    let in_line = names_in_line(world, from, &r.class);
    has_access(world, from, in_line, m.class, method_shape(world, m).flags)
}
