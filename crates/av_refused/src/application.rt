ghost use Rattle.std.specs.Prelude.{◌≡◌, ◌↔◌, ℕ, List, Contains, IfOk, IsTrue, map};
ghost use Rattle.av_asked.specs.Asking.{AreDistinct};
ghost use Rattle.av_refused.specs.Firsts.{Finds, NamesOne, shape_name};

use av_asked::NameList;
use av_named::names_of_shape;
use jv_types::{Copied, Name, Shape};
use std::alloc::{AllocError, Global};

/// The names of these classes, in their order. Only memory can be wanting.
pub fn names_of_classes(alloc: Global, shapes: &[Shape]) -> Result<NameList, AllocError>
    requires { AreDistinct (map shape_name shapes.now) }
    ensures { IfOk result (λ names. names ≡ map shape_name shapes.now) }
{
    let mut names = NameList::new(alloc);
    for shape in shapes {
        names.add(&shape.name)?;
    }
    Ok(names)
}

/// Whether one of these names is on the list.
fn has_any(list: &NameList, names: &[Name]) -> bool
    ensures { IsTrue result ↔ ((name : List ℕ) × Contains names.now name × Contains list.now name) }
{
    for name in names {
        if list.has(name) {
            return true;
        }
    }
    false
}

/// Whether a class names one of these classes, as a supertype or in a descriptor. Only memory can be wanting.
fn names_one(alloc: Global, list: &NameList, shape: &Shape) -> Result<bool, AllocError>
    ensures { IfOk result (λ names. IsTrue names ↔ NamesOne list.now shape.now) }
{
    let mut names = Vec::new(alloc);
    names_of_shape(shape, &mut names)?;
    Ok(has_any(list, names.as_slice()))
}

/// The first of the classes that names one of these, as a supertype or in a descriptor. Only memory can be wanting.
pub fn first_naming(
    alloc: Global,
    list: &NameList,
    shapes: &[Shape],
) -> Result<Option<Name>, AllocError>
    ensures { IfOk result (Finds shape_name (NamesOne list.now) shapes.now) }
{
    for shape in shapes {
        if names_one(alloc, list, shape)? {
            return Ok(Some(shape.name.copy()?));
        }
    }
    Ok(None)
}
