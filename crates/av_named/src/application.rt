ghost use Rattle.std.specs.Prelude.{◌⊎◌, ℕ, IfOk, OnOk, Contains, ◌↔◌, List};
ghost use Rattle.av_named.specs.Appending.{Appends, OfEach};
ghost use Rattle.av_named.specs.Named.{ApplicationNames, BodyNames, IsCore, ShapeNames, TextNames};

use crate::codes::names_of_bodies;
use crate::core_names::push_core;
use crate::members::names_of_shape;
use crate::texts::names_of_texts;
use av_collected::MethodBody;
use jv_types::{Name, Shape};
use std::alloc::{AllocError, Global};

/// Adds what these classes name as supertypes and in the descriptors of their members.
fn names_of_shapes(shapes: &[Shape], out: &mut Vec<Name>) -> Result<(), AllocError>
    ensures { OnOk result (Appends (OfEach ShapeNames shapes.now) out.old.items out.new.items) }
{
    for shape in shapes {
        names_of_shape(shape, out)?;
    }
    Ok(())
}

/// Adds what classes and codes name.
fn names_of_program(
    shapes: &[Shape],
    bodies: &[MethodBody],
    out: &mut Vec<Name>,
) -> Result<(), AllocError>
    ensures { OnOk result (Appends (λ name. OfEach ShapeNames shapes.now name ⊎ OfEach BodyNames bodies.now name) out.old.items out.new.items) }
{
    names_of_shapes(shapes, out)?;
    names_of_bodies(bodies, out)
}

/// Adds what texts name, and the classes that every world has.
fn names_besides(alloc: Global, maps: &[Name], out: &mut Vec<Name>) -> Result<(), AllocError>
    ensures { OnOk result (Appends (λ name. OfEach TextNames maps.now name ⊎ IsCore name) out.old.items out.new.items) }
{
    names_of_texts(alloc, maps, out)?;
    push_core(alloc, out)
}

/// The classes that an application names, in its classes, codes and stack maps, and those that every world has;
/// those of the application are among them. A name may stand there more than once. Only memory can be wanting.
pub fn application_names(
    alloc: Global,
    app: &[Shape],
    maps: &[Name],
    bodies: &[MethodBody],
) -> Result<Vec<Name>, AllocError>
    ensures { IfOk result (λ names. (name : List ℕ) → Contains names.items name
        ↔ ApplicationNames (record { shapes = app.now; maps = maps.now; bodies = bodies.now }) name) }
{
    let mut names = Vec::new(alloc);
    names_of_program(app, bodies, &mut names)?;
    names_besides(alloc, maps, &mut names)?;
    Ok(names)
}
