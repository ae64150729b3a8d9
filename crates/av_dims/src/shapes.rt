ghost use Rattle.av_dims.specs.Greatest.{AreSmall, FieldDims, IsGreatest, MethodDims, OfSome, ShapeDims};

use crate::types::{desc_dims, greater, greatest_in_method};
use jv_types::{FieldShape, MethodShape, Shape};

/// The greatest number of dimensions of these fields' types, and at least 1.
fn greatest_in_fields(fields: &[FieldShape]) -> u8
    requires { AreSmall (OfSome FieldDims fields.now) }
    ensures { IsGreatest (OfSome FieldDims fields.now) result }
{
    let mut dims = 1;
    for field in fields {
        dims = greater(dims, desc_dims(&field.desc));
    }
    dims
}

/// The greatest number of dimensions in these methods' descriptors, and at least 1.
fn greatest_in_methods(methods: &[MethodShape]) -> u8
    requires { AreSmall (OfSome MethodDims methods.now) }
    ensures { IsGreatest (OfSome MethodDims methods.now) result }
{
    let mut dims = 1;
    for method in methods {
        dims = greater(dims, greatest_in_method(&method.desc));
    }
    dims
}

/// The greatest number of dimensions in the descriptors of a class's members, and at least 1.
fn greatest_in_shape(shape: &Shape) -> u8
    requires { AreSmall (ShapeDims shape.now) }
    ensures { IsGreatest (ShapeDims shape.now) result }
{
    greater(
        greatest_in_fields(shape.fields.as_slice()),
        greatest_in_methods(shape.methods.as_slice()),
    )
}

/// The greatest number of dimensions in the descriptors of these classes' members, and at least 1.
pub fn greatest_in_shapes(shapes: &[Shape]) -> u8
    requires { AreSmall (OfSome ShapeDims shapes.now) }
    ensures { IsGreatest (OfSome ShapeDims shapes.now) result }
{
    let mut dims = 1;
    for shape in shapes {
        dims = greater(dims, greatest_in_shape(shape));
    }
    dims
}
