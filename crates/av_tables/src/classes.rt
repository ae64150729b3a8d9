ghost use Rattle.std.specs.Prelude.{IfSome, IfNone};
ghost use Rattle.jv_types.specs.declared.shapes.Shape.{Shape as ShapeValue};
ghost use Rattle.av_tables.specs.Tables.{ShapeAt};
ghost use Rattle.av_tables.specs.Steps.{known};

use crate::read_file::ReadFile;
use crate::signature::Signature;
use jv_types::{Name, Shape};

/// The files that were read of a library, and what is found in them: the names of classes in rising order, whose
/// places are the numbers of the classes; for each the place of its file, where it was read; and the names and
/// descriptors of all methods, in rising order.
#[derive(Drop)]
pub struct Classes<'a> {
    pub files: &'a [ReadFile],
    pub names: Vec<Name>,
    pub places: Vec<Option<usize>>,
    pub signatures: Vec<Signature>,
}

/// The shape of a class, where its file was read and isn't malformed.
pub fn shape_at<'a>(classes: &Classes<'a>, class: usize) -> Option<&'a Shape>
    ensures found { IfSome result (λ shape. ShapeAt (known classes.now) class shape.now) }
    ensures none { IfNone result ((shape : ShapeValue) → ¬ ShapeAt (known classes.now) class shape) }
{
    let Some(Some(place)) = classes.places.as_slice().get(class) else {
        return None;
    };
    let Some(file) = classes.files.get(*place) else {
        return None;
    };
    file.shape()
}
