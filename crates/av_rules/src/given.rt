ghost use Rattle.std.specs.Prelude.{◌≡◌, ◌↔◌, IsTrue, IfOk, IfSome, IfNone, Contains};
ghost use Rattle.jv_types.specs.declared.frames.FramedBody.{FramedBody as Framed};
ghost use Rattle.jv_world.specs.Worlds.{object_name, IsNamed};
ghost use Rattle.av_conditions.specs.Conditions.{MeetConditions};
ghost use Rattle.av_conditions.specs.Initialisers.{IsApplicationClass};

use jv_types::{ClassId, FramedBody, MethodId, Name};
use jv_world::World;
use std::alloc::{AllocError, Global};

/// A world of application and stand-in, the methods whose code is given, the method main, and what was looked up
/// once in the world.
#[derive(Drop)]
pub struct Given<'a> {
    pub world: &'a World,
    pub methods: &'a [FramedBody],
    pub start: MethodId,
    /// The class of any object of each class, where there is one.
    pub any: Vec<Option<ClassId>>,
    pub object: ClassId,
}

/// Whether a class is one of the application.
pub fn is_application_class(world: &World, c: ClassId) -> bool
    ensures { IsTrue result ↔ IsApplicationClass world.now c.number }
{
    match world.shapes().get(c.number as usize) {
        None => false,
        Some(shape) => shape.application,
    }
}

/// The body of a method, where it is among these.
pub fn body_of(methods: &[FramedBody], m: MethodId) -> Option<&FramedBody>
    ensures found { IfSome result (λ framed. Contains methods.now framed.now × (framed.now.method ≡ m)) }
    ensures none { IfNone result ((framed : Framed) → Contains methods.now framed → ¬ (framed.method ≡ m)) }
{
    for framed in methods {
        if framed.method == m {
            return Some(framed);
        }
    }
    None
}

/// The class Object of a world that has it. Only memory can be wanting.
pub fn object_class(
    alloc: Global,
    world: &World,
    methods: &[FramedBody],
) -> Result<ClassId, AllocError>
    requires { MeetConditions world.now methods.now }
    ensures { IfOk result (λ c. IsNamed world.now c.number object_name) }
{
    let name = Name::from_slice(alloc, b"java/lang/Object")?;
    match world.class(&name) {
        Some(c) => Ok(c),
        None => unreachable!(),
    }
}
