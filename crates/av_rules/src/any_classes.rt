ghost use Rattle.std.specs.Prelude.{◌≡◌, ◌<◌, ◌↔◌, ℕ, false, Some, length, slice_get, IsTrue, IfOk, IfSome, IfNone};
ghost use Rattle.jv_world.specs.Worlds.{IsFinal, IsInterface, IsWorld};
ghost use Rattle.av_conditions.specs.StandIn.{any_name};
ghost use Rattle.av_rules.specs.StandInClasses.{IsAnyClassOf};
ghost use Rattle.av_rules.specs.Steps.Tables.{AreOfEach, SaysAny};

use jv_types::{ClassId, Name, Shape};
use jv_world::{World, is_final, is_interface};
use std::alloc::{AllocError, Global};

/// The name of the class of any object of the class of this name.
fn any_name(alloc: Global, name: &Name) -> Result<Name, AllocError>
    ensures { IfOk result (λ made. made ≡ any_name name.now) }
{
    let mut bytes = Vec::from_slice(alloc, name.as_slice())?;
    bytes.extend_from_slice(b"$averroes$any")?;
    Ok(Name::from_vec(bytes))
}

/// Whether a class is one of the library that may be extended.
fn is_open(shape: &Shape) -> bool
    ensures { IsTrue result ↔ ((shape.now.application ≡ false) × ¬ IsFinal shape.now × ¬ IsInterface shape.now) }
{
    !shape.application && !is_final(shape) && !is_interface(shape)
}

/// The class of any object of a class, where there is one.
fn any_class_of(alloc: Global, world: &World, c: ClassId) -> Result<Option<ClassId>, AllocError>
    requires { c.number < length world.now }
    ensures { IfOk result (SaysAny world.now c.number) }
{
    let shape = world.shape(c);
    if !is_open(shape) {
        return Ok(None);
    }
    let name = any_name(alloc, &shape.name)?;
    Ok(world.class(&name))
}

/// The class of any object of each class of a world, where there is one. Only memory can be wanting.
pub fn any_classes(alloc: Global, world: &World) -> Result<Vec<Option<ClassId>>, AllocError>
    ensures found { IfOk result (λ found. AreOfEach (SaysAny world.now) (length world.now) found.items) }
    ensures world { IsWorld world.now }
{
    let count = world.shapes().len();
    let mut found = Vec::with_capacity(alloc, count)?;
    for number in 0..count {
        let class = ClassId {
            number: number as u32,
        };
        let any = any_class_of(alloc, world, class)?;
        found.push(any)?;
    }
    Ok(found)
}

/// The class of any object of a class, by the table of all.
pub fn any_at(world: &World, any: &[Option<ClassId>], c: ClassId) -> Option<ClassId>
    requires { AreOfEach (SaysAny world.now) (length world.now) any.now }
    ensures { SaysAny world.now c.number result }
{
    match any.get(c.number as usize) {
        None => None,
        Some(found) => *found,
    }
}

/// Whether this class is that of any object of the class at a place of the table.
fn stands_for(any: &[Option<ClassId>], number: usize, own: ClassId) -> bool
    requires { number < length any.now }
    ensures { IsTrue result ↔ (slice_get any.now number ≡ Some (Some own)) }
{
    match any[number] {
        None => false,
        Some(found) => found == own,
    }
}

/// The class for any object of which a class stands, by the table of all.
pub fn stood_for(world: &World, any: &[Option<ClassId>], own: ClassId) -> Option<ClassId>
    requires { AreOfEach (SaysAny world.now) (length world.now) any.now }
    ensures found { IfSome result (λ c. IsAnyClassOf world.now c.number own.number) }
    ensures none { IfNone result ((c : ℕ) → ¬ IsAnyClassOf world.now c own.number) }
{
    let count = world.shapes().len();
    for number in 0..count {
        if stands_for(any, number, own) {
            return Some(ClassId {
                number: number as u32,
            });
        }
    }
    None
}
