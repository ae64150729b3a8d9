ghost use Rattle.std.specs.Prelude.{◌≡◌, ◌↔◌, IsTrue, IfOk};
ghost use Rattle.jv_resolve.specs.Members.{HasMethod};
ghost use Rattle.av_insn_rules.specs.InsnRules.{is_member, is_of_classes, is_of_makers, is_of_members, is_of_others, is_reflective, CallsReflection, IsReflection};

use crate::worlds::is_a_world;
use av_conditions::resolved_call;
use jv_resolve::method_shape;
use jv_types::{Arg, Insn, MethodId};
use jv_world::World;
use std::alloc::{AllocError, Global};

/// Whether the member of a class, by their names, is this one.
fn is_member(class: &[u8], name: &[u8], of: &[u8], called: &[u8]) -> bool
    ensures { result ≡ is_member class.now name.now of.now called.now }
{
    class == of && name == called
}

/// Whether it is one by which classes are looked up or made by name.
fn is_of_classes(class: &[u8], name: &[u8]) -> bool
    ensures { result ≡ is_of_classes class.now name.now }
{
    is_member(class, name, b"java/lang/Class", b"forName")
        || is_member(class, name, b"java/lang/Class", b"newInstance")
        || is_member(class, name, b"java/lang/ClassLoader", b"loadClass")
}

/// Whether it is one of java/lang/reflect that makes objects.
fn is_of_makers(class: &[u8], name: &[u8]) -> bool
    ensures { result ≡ is_of_makers class.now name.now }
{
    is_member(
        class,
        name,
        b"java/lang/reflect/Constructor",
        b"newInstance",
    ) || is_member(class, name, b"java/lang/reflect/Proxy", b"newProxyInstance")
        || is_member(class, name, b"java/lang/reflect/Array", b"newInstance")
}

/// Whether it is one of java/lang/reflect that uses members.
fn is_of_members(class: &[u8], name: &[u8]) -> bool
    ensures { result ≡ is_of_members class.now name.now }
{
    is_member(class, name, b"java/lang/reflect/Method", b"invoke")
        || is_member(class, name, b"java/lang/reflect/Field", b"get")
        || is_member(class, name, b"java/lang/reflect/Field", b"set")
}

/// Whether it is another one that calls or makes what it names.
fn is_of_others(class: &[u8], name: &[u8]) -> bool
    ensures { result ≡ is_of_others class.now name.now }
{
    is_member(class, name, b"java/io/ObjectInputStream", b"readObject")
        || is_member(class, name, b"java/util/ServiceLoader", b"load")
        || is_member(class, name, b"java/lang/invoke/MethodHandle", b"invoke")
        || is_member(
            class,
            name,
            b"java/lang/invoke/MethodHandle",
            b"invokeExact",
        )
}

/// Whether the member of a class, by their names, is one by which a program calls or makes what it names at run time.
fn is_reflective(class: &[u8], name: &[u8]) -> bool
    ensures { result ≡ is_reflective class.now name.now }
{
    is_of_classes(class, name)
        || is_of_makers(class, name)
        || is_of_members(class, name)
        || is_of_others(class, name)
}

/// Whether a method is one of these members.
fn is_reflection(world: &World, m: MethodId) -> bool
    requires { HasMethod world.now m }
    ensures { IsTrue result ↔ IsReflection world.now m }
{
    let class = &world.shape(m.class).name;
    let name = &method_shape(world, m).name;
    is_reflective(class.as_slice(), name.as_slice())
}

/// Whether the call of an instruction resolves to one of these members. Only memory can be wanting.
pub fn calls_reflection(alloc: Global, world: &World, insn: &Insn) -> Result<bool, AllocError>
    ensures { IfOk result (λ calls. IsTrue calls ↔ CallsReflection world.now insn.now) }
{
    let Arg::Method(r) = &insn.arg else {
        return Ok(false);
    };
    is_a_world(world);
    match resolved_call(alloc, world, r)? {
        None => Ok(false),
        Some(m) => Ok(is_reflection(world, m)),
    }
}
