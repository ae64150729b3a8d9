ghost use Rattle.std.specs.Prelude.{◌≡◌, Some, Contains, OnOk};
ghost use Rattle.std.specs.Option.{option_copied};
ghost use Rattle.jv_world.specs.Worlds.{NamesSuper};
ghost use Rattle.jv_types.specs.declared.desc.Desc.{Desc as DescValue};
ghost use Rattle.av_collected.specs.Types.{HasClass, MentionsClass};
ghost use Rattle.av_named.specs.Appending.{Appends, OfEach};
ghost use Rattle.av_named.specs.Named.{FieldNames, MemberNames, MethodNames, ShapeNames};

use crate::types::{names_of_desc, push_copy, push_some};
use jv_types::{Desc, FieldShape, MethodDesc, MethodShape, Name, Shape};
use std::alloc::AllocError;

/// Adds the names of the classes in these types.
fn names_of_descs(descs: &[Desc], out: &mut Vec<Name>) -> Result<(), AllocError>
    ensures { OnOk result (Appends (OfEach HasClass descs.now) out.old.items out.new.items) }
{
    for desc in descs {
        names_of_desc(desc, out)?;
    }
    Ok(())
}

/// Adds the name of the class in a result, if there is one.
fn names_of_result(desc: &MethodDesc, out: &mut Vec<Name>) -> Result<(), AllocError>
    ensures { OnOk result (Appends (λ name. (type : DescValue) × (desc.now.result ≡ Some type) × HasClass type name) out.old.items out.new.items) }
{
    match &desc.result {
        None => Ok(()),
        Some(of) => names_of_desc(of, out),
    }
}

/// Adds the names of the classes in a method's descriptor.
pub fn names_of_method_desc(desc: &MethodDesc, out: &mut Vec<Name>) -> Result<(), AllocError>
    ensures { OnOk result (Appends (MentionsClass desc.now) out.old.items out.new.items) }
{
    names_of_descs(desc.params.as_slice(), out)?;
    names_of_result(desc, out)
}

/// Adds the name of the class in a field's type, if there is one.
pub fn names_of_field(field: &FieldShape, out: &mut Vec<Name>) -> Result<(), AllocError>
    ensures { OnOk result (Appends (FieldNames field.now) out.old.items out.new.items) }
{
    names_of_desc(&field.desc, out)
}

/// Adds the names of the classes in a method's descriptor.
pub fn names_of_method(method: &MethodShape, out: &mut Vec<Name>) -> Result<(), AllocError>
    ensures { OnOk result (Appends (MethodNames method.now) out.old.items out.new.items) }
{
    names_of_method_desc(&method.desc, out)
}

/// Adds the names of the classes in the types of these fields.
fn names_of_fields(fields: &[FieldShape], out: &mut Vec<Name>) -> Result<(), AllocError>
    ensures { OnOk result (Appends (OfEach FieldNames fields.now) out.old.items out.new.items) }
{
    for field in fields {
        names_of_field(field, out)?;
    }
    Ok(())
}

/// Adds the names of the classes in the descriptors of these methods.
fn names_of_methods(methods: &[MethodShape], out: &mut Vec<Name>) -> Result<(), AllocError>
    ensures { OnOk result (Appends (OfEach MethodNames methods.now) out.old.items out.new.items) }
{
    for method in methods {
        names_of_method(method, out)?;
    }
    Ok(())
}

/// Adds copies of these names.
pub fn push_copies(names: &[Name], out: &mut Vec<Name>) -> Result<(), AllocError>
    ensures { OnOk result (Appends (Contains names.now) out.old.items out.new.items) }
{
    for name in names {
        push_copy(name, out)?;
    }
    Ok(())
}

/// Adds what a class names as its superclass and as its superinterfaces.
pub fn names_of_supers(shape: &Shape, out: &mut Vec<Name>) -> Result<(), AllocError>
    ensures { OnOk result (Appends (NamesSuper shape.now) out.old.items out.new.items) }
{
    push_some(shape.parent.as_ref(), out)?;
    push_copies(shape.interfaces.as_slice(), out)
}

/// Adds the names of the classes in the descriptors of a class's members.
fn names_of_members(shape: &Shape, out: &mut Vec<Name>) -> Result<(), AllocError>
    ensures { OnOk result (Appends (MemberNames shape.now) out.old.items out.new.items) }
{
    names_of_fields(shape.fields.as_slice(), out)?;
    names_of_methods(shape.methods.as_slice(), out)
}

/// Adds what a class names as its supertypes and in the descriptors of its members.
pub fn names_of_shape(shape: &Shape, out: &mut Vec<Name>) -> Result<(), AllocError>
    ensures { OnOk result (Appends (ShapeNames shape.now) out.old.items out.new.items) }
{
    names_of_supers(shape, out)?;
    names_of_members(shape, out)
}
