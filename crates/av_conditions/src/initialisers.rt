ghost use Rattle.std.specs.Prelude.{◌≡◌, ◌<◌, length, IfOk, IfSome, IfNone};
ghost use Rattle.jv_types.specs.declared.ids.MethodId.{MethodId};
ghost use Rattle.jv_world.specs.Worlds.{IsWorld};
ghost use Rattle.av_conditions.specs.CoreClasses.{void_desc};
ghost use Rattle.av_conditions.specs.Initialisers.{clinit_name, AreInitialisersOf, AreLine, IsInitialiser};

use jv_resolve::{declared_method, is_static, method_shape};
use jv_types::{ClassId, MethodDesc, MethodId, Name, Seq};
use jv_world::World;
use std::alloc::{AllocError, Global};

/// The class and its proper supertypes. Only memory can be wanting.
fn line_of(alloc: Global, world: &World, c: ClassId) -> Result<Vec<ClassId>, AllocError>
    requires { c.number < length world.now }
    ensures { IfOk result (λ line. AreLine world.now c.number line.items) }
{
    let mut line = world.supers(alloc, c)?;
    line.push(c)?;
    Ok(line)
}

/// The initialiser that a class itself has, where it is of the application and has one.
fn own_initialiser(world: &World, c: ClassId, name: &Name, desc: &MethodDesc) -> Option<MethodId>
    requires here { c.number < length world.now }
    requires name { name.now ≡ clinit_name }
    requires desc { desc.now ≡ void_desc }
    ensures found { IfSome result (λ m. (m.class ≡ c) × IsInitialiser world.now m) }
    ensures none { IfNone result ((m : MethodId) → m.class.number ≡ c.number → ¬ IsInitialiser world.now m) }
{
    if !world.shape(c).application {
        return None;
    }
    let Some(m) = declared_method(world, c, name, desc) else {
        return None;
    };
    if !is_static(method_shape(world, m).flags) {
        return None;
    }
    Some(m)
}

/// The initialisers of a class, its superclasses and its superinterfaces, where these are of the application
/// (JVMS 5.5). Only memory can be wanting.
pub fn initialisers_of(
    alloc: Global,
    world: &World,
    c: ClassId,
) -> Result<Vec<MethodId>, AllocError>
    requires { c.number < length world.now }
    ensures { IfOk result (λ found. AreInitialisersOf world.now c.number found.items) }
{
    let name = Name::from_slice(alloc, b"<clinit>")?;
    let desc = MethodDesc {
        params: Seq::new(alloc),
        result: None,
    };
    let line = line_of(alloc, world, c)?;
    let mut found = Vec::new(alloc);
    let classes = line.as_slice();
    for d in classes {
        if let Some(m) = own_initialiser(world, *d, &name, &desc) {
            found.push(m)?;
        }
    }
    Ok(found)
}
