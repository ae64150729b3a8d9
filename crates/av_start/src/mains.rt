ghost use Rattle.std.specs.Prelude.{◌≡◌, ◌<◌, ◌^◌, ◌↔◌, IsTrue, IfOk, IfErr, IfSome, IfNone, length, option_map};
ghost use Rattle.av_stops.specs.Mains.{HasNoMain, IsMainOf, IsStartOf};
ghost use Rattle.av_start.specs.Starting.{HasNoStart, IsStartStop};
ghost use Rattle.av_start.specs.Steps.{HasNoMainAt, HasNoMainIn, IsMainAt, IsMainIn, LooksLikeMain};

use crate::main_desc::is_main_desc;
use av_program::AcceptStop;
use jv_resolve::{is_public, is_static};
use jv_types::{ClassId, Copied, MethodId, MethodShape, Name, Refusal, Rule, RulePlace};
use jv_world::World;
use std::alloc::AllocError;

/// Whether a method is a main by its name, its descriptor and its flags.
fn looks_like_main(method: &MethodShape) -> bool
    ensures { IsTrue result ↔ LooksLikeMain method.now }
{
    method.name.as_slice() == b"main".as_slice()
        && is_main_desc(&method.desc)
        && is_public(method.flags)
        && is_static(method.flags)
}

/// The place of the first main among methods.
fn place_of_main(methods: &[MethodShape]) -> Option<u16>
    requires { length methods.now < 2 ^ 16 }
    ensures found { IfSome result (λ place. IsMainAt methods.now place) }
    ensures none { IfNone result (HasNoMainAt methods.now) }
{
    for place in 0..methods.len() {
        if looks_like_main(&methods[place]) {
            return Some(place as u16);
        }
    }
    None
}

/// The main of a class of the application, if it has one.
fn main_of_class(world: &World, class: ClassId) -> Option<MethodId>
    requires { class.number < length world.now }
    ensures found { IfSome result (IsMainIn world.now class.number) }
    ensures none { IfNone result (HasNoMainIn world.now class.number) }
{
    let shape = world.shape(class);
    if !shape.application {
        return None;
    }
    let index = place_of_main(shape.methods.as_slice())?;
    Some(MethodId { class, index })
}

/// That no main is in the class of this name (rule 20), unless memory is wanting to say so.
fn no_main(name: &Name) -> AcceptStop
    ensures { IsStartStop name.now result }
{
    match name.copy() {
        Ok(class) => AcceptStop::Refused(Refusal {
            rule: Rule::NoMain,
            place: RulePlace::Class(class),
        }),
        Err(AllocError) => AcceptStop::Memory,
    }
}

/// The main of the class of this name.
fn main_of(world: &World, name: &Name) -> Option<MethodId>
    ensures found { IfSome result (IsMainOf world.now name.now) }
    ensures none { IfNone result (HasNoMain world.now name.now) }
{
    match world.class(name) {
        None => None,
        Some(class) => main_of_class(world, class),
    }
}

/// The method with which a program starts: the main of the class of this name, a public static method that takes
/// strings and gives nothing (JLS 12.1.4). Where no class is named, there is none.
///
/// # Errors
///
/// `Refused` with rule 20 where the class of this name isn't one of the application, or has none. `Memory` where memory
/// is wanting to say so.
pub fn start_of(world: &World, main: Option<&Name>) -> Result<Option<MethodId>, AcceptStop>
    ensures start { IfOk result (IsStartOf world.now (option_map (λ name. name.now) main.entry)) }
    ensures refused { IfErr result (HasNoStart world.now (option_map (λ name. name.now) main.entry)) }
{
    let Some(name) = main else {
        return Ok(None);
    };
    match main_of(world, name) {
        Some(start) => Ok(Some(start)),
        None => Err(no_main(name)),
    }
}
