ghost use Rattle.std.specs.Prelude.{◌↔◌, IsTrue};
ghost use Rattle.jv_world.specs.Worlds.{IsInterface};
ghost use Rattle.jv_resolve.specs.Members.{IsPublic, IsPrivate, IsProtected, IsStatic, IsAbstract};

use bitflags::Flags;
use jv_types::{Access, MethodShape, Shape};

/// Whether a member is public (JVMS tables 4.5-A and 4.6-A).
pub fn is_public(access: Access) -> bool
    ensures { IsTrue result ↔ IsPublic access }
{
    access.contains(Access::PUBLIC)
}

/// Whether a member is private.
pub fn is_private(access: Access) -> bool
    ensures { IsTrue result ↔ IsPrivate access }
{
    access.contains(Access::PRIVATE)
}

/// Whether a member is protected.
pub fn is_protected(access: Access) -> bool
    ensures { IsTrue result ↔ IsProtected access }
{
    access.contains(Access::PROTECTED)
}

/// Whether a member is static.
pub fn is_static(access: Access) -> bool
    ensures { IsTrue result ↔ IsStatic access }
{
    access.contains(Access::STATIC)
}

/// Whether a method is abstract.
pub fn is_abstract(access: Access) -> bool
    ensures { IsTrue result ↔ IsAbstract access }
{
    access.contains(Access::ABSTRACT)
}

/// Whether a shape is that of an interface (JVMS table 4.1-B).
pub fn is_interface(shape: &Shape) -> bool
    ensures { IsTrue result ↔ IsInterface shape.now }
{
    shape.flags.contains(Access::INTERFACE)
}

/// Whether a method is neither private nor static.
pub fn is_inheritable(method: &MethodShape) -> bool
    ensures { IsTrue result ↔ (¬ IsPrivate method.now.flags × ¬ IsStatic method.now.flags) }
{
    !is_private(method.flags) && !is_static(method.flags)
}
