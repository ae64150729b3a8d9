ghost use Rattle.std.specs.Prelude.{◌<◌, length, IfOk, IfSome};
ghost use Rattle.jv_resolve.specs.Members.{HasMethod};

use crate::names::{member_of, name_of};
use jv_desc::method_desc;
use jv_types::{ClassId, MethodDesc, MethodId, Name};
use jv_world::World;
use std::alloc::Global;
use std::test::Fail;

/// The class of a name.
pub fn class_of(alloc: Global, world: &World, text: &str) -> Result<ClassId, Fail>
    ensures { IfOk result (λ c. c.number < length world.now) }
{
    Ok(world.class(&name_of(alloc, text)?).ok_or("the class")?)
}

/// The method at a place of a class, where the world has so many.
pub fn method_at(world: &World, class: ClassId, index: u16) -> Option<MethodId>
    ensures { IfSome result (HasMethod world.now) }
{
    let shape = world.shapes().get(class.number as usize)?;
    let _method = shape.methods.as_slice().get(usize::from(index))?;
    Some(MethodId { class, index })
}

/// The place of the method of this name and descriptor in a class.
fn method_place(world: &World, class: ClassId, name: &Name, desc: &MethodDesc) -> Option<u16> {
    let shape = world.shapes().get(class.number as usize)?;
    for (place, method) in shape.methods.as_slice().iter().enumerate() {
        if method.name == *name && method.desc == *desc {
            return u16::try_from(place).ok();
        }
    }
    None
}

/// The place of the method of a text such as `m:(I)V` in a class.
fn place_of(alloc: Global, world: &World, class: ClassId, text: &str) -> Result<Option<u16>, Fail> {
    let (name, desc) = member_of(text);
    let name = name_of(alloc, name)?;
    let desc = method_desc(alloc, desc.as_bytes())?;
    Ok(method_place(world, class, &name, &desc))
}

/// The method that a class declares, of a text such as `a/C.m:(I)V`.
pub fn method_of(alloc: Global, world: &World, text: &str) -> Result<MethodId, Fail>
    ensures { IfOk result (HasMethod world.now) }
{
    let (class, member) = text.split_once('.').unwrap_or((text, ""));
    let class = class_of(alloc, world, class)?;
    let index = place_of(alloc, world, class, member)?.ok_or("the method's place")?;
    Ok(method_at(world, class, index).ok_or("the method")?)
}

/// Whether a class has this name.
pub fn is_class(world: &World, class: ClassId, name: &str) -> bool {
    match world.shapes().get(class.number as usize) {
        None => false,
        Some(shape) => shape.name.as_slice() == name.as_bytes(),
    }
}

/// Whether classes have these names, in their order. `none` stands for no name.
pub fn are_classes(world: &World, classes: &[ClassId], names: &str) -> bool {
    if names == "none" {
        return classes.is_empty();
    }
    for (place, name) in names.split(' ').enumerate() {
        match classes.get(place) {
            None => return false,
            Some(class) if !is_class(world, *class, name) => return false,
            Some(_) => {}
        }
    }
    names.split(' ').count() == classes.len()
}

/// Whether what was found is the method of a text, or nothing where that is `none`.
pub fn is_method(
    alloc: Global,
    world: &World,
    found: Option<MethodId>,
    text: &str,
) -> Result<bool, Fail> {
    match found {
        None => Ok(text == "none"),
        Some(_) if text == "none" => Ok(false),
        Some(method) => Ok(method_of(alloc, world, text)? == method),
    }
}

/// Whether what was found is the methods of a text, in any order. `none` stands for no method.
pub fn are_methods(
    alloc: Global,
    world: &World,
    found: &[MethodId],
    texts: &str,
) -> Result<bool, Fail> {
    if texts == "none" {
        return Ok(found.is_empty());
    }
    for text in texts.split(' ') {
        if !found.contains(&method_of(alloc, world, text)?) {
            return Ok(false);
        }
    }
    Ok(texts.split(' ').count() == found.len())
}
