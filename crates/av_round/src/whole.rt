ghost use Rattle.std.specs.Prelude.{◌≡◌, ◌<◌, ◌+◌, ◌↔◌, length, Contains, IfOk, OnOk};
ghost use Rattle.jv_types.specs.declared.shapes.Shape.{Shape as ShapeValue};
ghost use Rattle.av_named.specs.Appending.{Appends};
ghost use Rattle.av_tables.specs.Tables.{ShapeAt};
ghost use Rattle.av_tables.specs.Steps.{known};
ghost use Rattle.av_round.specs.Steps.{HasWholeBy, IsHereBy, IsShapeBelow};

use av_tables::{Classes, shape_at};
use av_whole::whole_world;
use jv_types::{Copied, Shape};
use jv_world::{World, are_numbered};
use std::alloc::{AllocError, Global};

/// Adds copies of classes.
fn push_copies(shapes: &[Shape], out: &mut Vec<Shape>) -> Result<(), AllocError>
    ensures { OnOk result (Appends (Contains shapes.now) out.old.items out.new.items) }
{
    for shape in shapes {
        out.push(shape.copy()?)?;
    }
    Ok(())
}

/// Adds a copy of a class, where it was read.
fn push_read(classes: &Classes, class: usize, out: &mut Vec<Shape>) -> Result<(), AllocError>
    ensures { OnOk result (Appends (ShapeAt (known classes.now) class) out.old.items out.new.items) }
{
    match shape_at(classes, class) {
        None => Ok(()),
        Some(shape) => {
            out.push(shape.copy()?)?;
            Ok(())
        }
    }
}

/// Adds copies of the classes that were read.
fn push_all_read(classes: &Classes, out: &mut Vec<Shape>) -> Result<(), AllocError>
    ensures { OnOk result (Appends (IsShapeBelow (length classes.now.names.items) (known classes.now)) out.old.items out.new.items) }
{
    for class in 0..classes.names.len() {
        push_read(classes, class, out)?;
    }
    Ok(())
}

/// The classes of the application and those that were read. Only memory can be wanting.
fn shapes_here(alloc: Global, app: &[Shape], classes: &Classes) -> Result<Vec<Shape>, AllocError>
    ensures { IfOk result (λ shapes. (shape : ShapeValue) → Contains shapes.items shape ↔ IsHereBy app.now (known classes.now) shape) }
{
    let mut shapes = Vec::new(alloc);
    push_copies(app, &mut shapes)?;
    push_all_read(classes, &mut shapes)?;
    Ok(shapes)
}

/// The world of the whole classes among those of the application and those that were read. No more than 2^32 classes
/// can be numbered: past that, memory counts as wanting.
pub fn whole_of(alloc: Global, app: &[Shape], classes: &Classes) -> Result<World, AllocError>
    ensures { IfOk result (HasWholeBy app.now (known classes.now)) }
{
    let shapes = shapes_here(alloc, app, classes)?;
    let here = shapes.as_slice();
    let numbered = are_numbered(alloc, here)?;
    if !numbered {
        return Err(AllocError);
    }
    whole_world(alloc, here)
}
