ghost use Rattle.std.specs.Prelude.{◌≡◌, ◌<◌, ◌↔◌, length, IsTrue};
ghost use Rattle.jv_types.specs.declared.ids.MethodId.{MethodId as MethodIdValue};
ghost use Rattle.jv_resolve.specs.Members.{HasMethod};
ghost use Rattle.av_hierarchy.specs.Hierarchy.{HaveDistinctMethods, IsFinalMethod};
ghost use Rattle.jv_resolve.specs.Overriding.{Overrides};
ghost use Rattle.av_hierarchy.specs.Steps.Finals.{IsFinalIn, MethodOverridesFinal, OverridesFinalOf};

use bitflags::Flags;
use jv_resolve::{declared_method, method_shape, overrides};
use jv_types::{Access, ClassId, MethodId, MethodShape};
use jv_world::World;

/// Whether a method is final (JVMS table 4.6-A).
fn has_final_flag(method: &MethodShape) -> bool
    ensures { IsTrue result ↔ IsFinalMethod method.now }
{
    method.flags.contains(Access::FINAL)
}

/// Whether a method of the world is.
fn is_final_method(world: &World, m: MethodId) -> bool
    requires { HasMethod world.now m }
    ensures { IsTrue result ↔ IsFinalIn world.now m }
{
    has_final_flag(method_shape(world, m))
}

/// Whether a method overrides another one, which is final.
fn overrides_it(world: &World, m: MethodId, other: MethodId) -> bool
    requires method { HasMethod world.now m }
    requires other { HasMethod world.now other }
    ensures { IsTrue result ↔ (IsFinalIn world.now other × Overrides world.now m other) }
{
    is_final_method(world, other) && overrides(world, m, other)
}

/// Whether a method overrides a final one of the class `d`.
fn overrides_final_of(world: &World, m: MethodId, d: ClassId) -> bool
    requires method { HasMethod world.now m }
    requires here { d.number < length world.now }
    requires distinct { HaveDistinctMethods world.now }
    ensures { IsTrue result ↔ OverridesFinalOf world.now m d.number }
{
    let method = method_shape(world, m);
    match declared_method(world, d, &method.name, &method.desc) {
        None => false,
        Some(other) => overrides_it(world, m, other),
    }
}

/// Whether a method overrides a final one other than itself (JVMS 5.4.5).
fn overrides_final(world: &World, m: MethodId) -> bool
    requires method { HasMethod world.now m }
    requires distinct { HaveDistinctMethods world.now }
    ensures { IsTrue result ↔ MethodOverridesFinal world.now m }
{
    let supers = world.proper_supers(m.class);
    for d in supers {
        if overrides_final_of(world, m, *d) {
            return true;
        }
    }
    false
}

/// Whether a method of a class does.
pub fn has_overriding(world: &World, c: ClassId) -> bool
    requires here { c.number < length world.now }
    requires distinct { HaveDistinctMethods world.now }
    ensures { IsTrue result ↔ ((m : MethodIdValue) × (m.class.number ≡ c.number) × MethodOverridesFinal world.now m) }
{
    let count = world.shape(c).methods.len();
    for index in 0..count {
        let m = MethodId {
            class: c,
            index: index as u16,
        };
        if overrides_final(world, m) {
            return true;
        }
    }
    false
}
