ghost use Rattle.std.specs.Prelude.{◌≡◌, Some, map, IfOk, OnOk};
ghost use Rattle.jv_world.specs.Worlds.{AreNumbered, NamesSuper};
ghost use Rattle.jv_world.specs.Steps.Building.{AreLinks, AreClassNames, RowFor, AddsNamed};

use crate::names::Names;
use jv_types::{ClassId, Name, Shape};
use std::alloc::{AllocError, Global};

/// Adds the class of this name, if there is one. Only memory can be wanting.
fn add_named(row: &mut Vec<ClassId>, names: &Names, name: &Name) -> Result<(), AllocError>
    requires { AreClassNames names.now }
    ensures { OnOk result (AddsNamed names.now name.now row.old.items row.new.items) }
{
    if let Some(place) = names.place(name) {
        row.push(ClassId {
            number: place as u32,
        })?;
    }
    Ok(())
}

/// The superclass of a class, if it is there. Only memory can be wanting.
fn parent_row(alloc: Global, shape: &Shape, names: &Names) -> Result<Vec<ClassId>, AllocError>
    requires { AreClassNames names.now }
    ensures { IfOk result (λ row. RowFor (λ name. shape.now.parent ≡ Some name) names.now row.items) }
{
    let mut row = Vec::new(alloc);
    if let Some(parent) = &shape.parent {
        add_named(&mut row, names, parent)?;
    }
    Ok(row)
}

/// The direct supertypes of a class that are there. Only memory can be wanting.
fn row_of(alloc: Global, shape: &Shape, names: &Names) -> Result<Vec<ClassId>, AllocError>
    requires { AreClassNames names.now }
    ensures { IfOk result (λ row. RowFor (NamesSuper shape.now) names.now row.items) }
{
    let mut row = parent_row(alloc, shape, names)?;
    for name in shape.interfaces.as_slice() {
        add_named(&mut row, names, name)?;
    }
    Ok(row)
}

/// The direct supertypes of each class, as far as they are there. Only memory can be wanting.
pub fn links_of(
    alloc: Global,
    shapes: &[Shape],
    names: &Names,
) -> Result<Vec<Vec<ClassId>>, AllocError>
    requires numbered { AreNumbered shapes.now }
    requires names { names.now ≡ map (λ s. s.name) shapes.now }
    ensures { IfOk result (λ links. AreLinks shapes.now links.items) }
{
    let mut links = Vec::with_capacity(alloc, shapes.len())?;
    for shape in shapes {
        links.push(row_of(alloc, shape, names)?)?;
    }
    Ok(links)
}
