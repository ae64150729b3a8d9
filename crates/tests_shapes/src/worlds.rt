use crate::library::{OBJECT, classes_of};
use crate::shapes::shape_of;
use jv_types::Shape;
use jv_world::{HierRefusal, World, are_numbered};
use std::alloc::Global;
use std::test::Fail;

/// The classes of a text, which may be `library`, and Object before them where they lack it.
pub fn shapes_of(alloc: Global, text: &str) -> Result<Vec<Shape>, Fail> {
    let classes = classes_of(text);
    let mut shapes = Vec::new(alloc);
    if !classes.contains("java/lang/Object,C") {
        shapes.push(shape_of(alloc, OBJECT)?)?;
    }
    for class in classes.split(' ') {
        shapes.push(shape_of(alloc, class)?)?;
    }
    Ok(shapes)
}

/// The world of the classes of a text, or why they are none.
pub fn build(alloc: Global, text: &str) -> Result<Result<World, HierRefusal>, Fail> {
    let shapes = shapes_of(alloc, text)?;
    if !are_numbered(alloc, shapes.as_slice())? {
        return Err(Fail::from("classes with numbers"));
    }
    Ok(World::build(alloc, shapes))
}
