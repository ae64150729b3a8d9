ghost use Rattle.std.specs.Prelude.{◌≡◌, IsTrue, IfOk, All, find};
ghost use Rattle.std.specs.List.{list_all};
ghost use Rattle.std.specs.Option.{option_copied};
ghost use Rattle.av_collected.specs.Conditions.{AreGiven, IsMethodBody};
ghost use Rattle.tests_collect.specs.Given.{IsFitBody, is_class_named, is_class_text, is_of_application, is_small_arg, is_small_const, is_small_item, is_small_row};

use crate::bounds::{
    capped_dims, has_small_parts, have_small_fields, have_small_methods, is_small_type,
};
use av_collected::MethodBody;
use jv_types::{Arg, Const, Insn, Name, RefType, Shape, is_class_name};
use jv_world::are_numbered;
use std::alloc::{AllocError, Global};

/// How many classes an application may have.
const MOST_CLASSES: usize = 20_000;

/// Whether a class is marked as one of the application, and its members have types of at most 255 dimensions.
#[tactic(auto, unfolding(crate::specs::Given::is_of_application))]
fn is_of_application(shape: &Shape) -> bool
    ensures { result ≡ is_of_application shape.now }
{
    shape.application
        && (have_small_fields(shape.fields.as_slice())
            && have_small_methods(shape.methods.as_slice()))
}

/// Whether an array of this type has at most 255 dimensions.
#[tactic(auto, unfolding(crate::specs::Given::is_small_item))]
fn is_small_item(of: &RefType) -> bool
    ensures { result ≡ is_small_item of.now }
{
    capped_dims(of) <= 254
}

/// Whether a constant is a class, and an array of it has at most 255 dimensions.
fn is_small_const(constant: &Const) -> bool
    ensures { result ≡ is_small_const constant.now }
{
    match constant {
        Const::Class(of) => is_small_item(of),
        _ => false,
    }
}

/// Whether the types that operands name, and arrays of them, have at most 255 dimensions. Other operands aren't
/// handed in.
fn is_small_arg(arg: &Arg) -> bool
    ensures { result ≡ is_small_arg arg.now }
{
    match arg {
        Arg::Constant(constant) => is_small_const(constant),
        Arg::Class(of) => is_small_item(of),
        Arg::Multi(of, _) => is_small_item(of),
        Arg::Field(r) => is_small_type(&r.desc),
        Arg::Method(r) => is_small_item(&r.class) && has_small_parts(&r.desc),
        _ => false,
    }
}

/// Whether the instructions of a code name types of so few dimensions.
fn are_small_rows(rows: &[(u16, Insn)]) -> bool
    ensures { result ≡ list_all is_small_row rows.now }
{
    rows.iter().all(|row| is_small_arg(&row.1.arg))
}

/// The class of this name.
fn class_under<'a>(shapes: &'a [Shape], name: &Name) -> Option<&'a Shape>
    ensures { option_copied result ≡ find (is_class_named name.now) shapes.now }
{
    shapes.iter().find(|shape| shape.name == *name)
}

/// Whether classes have the method of this class at this place.
fn has_method(shapes: &[Shape], method: &MethodBody) -> bool
    ensures { IsTrue result → IsMethodBody shapes.now method.now }
{
    match class_under(shapes, &method.class) {
        None => false,
        Some(shape) => match shape.methods.as_slice().get(usize::from(method.index)) {
            None => false,
            Some(_) => true,
        },
    }
}

/// Whether a code is that of a method of these classes, and names small types.
fn is_fit_body(shapes: &[Shape], method: &MethodBody) -> bool
    ensures { IsTrue result → IsFitBody shapes.now method.now }
{
    are_small_rows(method.body.insns.as_slice()) && has_method(shapes, method)
}

/// Whether codes are those of methods of these classes, and name small types.
fn are_fit(shapes: &[Shape], bodies: &[MethodBody]) -> bool
    ensures { IsTrue result → All (IsFitBody shapes.now) bodies.now }
{
    for method in bodies {
        if !is_fit_body(shapes, method) {
            return false;
        }
    }
    true
}

/// Whether each class is one of the application.
fn are_of_application(shapes: &[Shape]) -> bool
    ensures { result ≡ list_all is_of_application shapes.now }
{
    shapes.iter().all(|shape| is_of_application(shape))
}

/// Whether each text is the name of a class.
fn are_class_names(texts: &[Name]) -> bool
    ensures { result ≡ list_all is_class_text texts.now }
{
    texts.iter().all(|text| is_class_name(text.as_slice()))
}

/// Whether collection may be given these classes, texts of stack maps, and codes. Only memory can be wanting.
pub fn may_be_given(
    alloc: Global,
    shapes: &[Shape],
    maps: &[Name],
    bodies: &[MethodBody],
) -> Result<bool, AllocError>
    ensures { IfOk result (λ given. IsTrue given → AreGiven (record { shapes = shapes.now; maps = maps.now; bodies = bodies.now })) }
{
    if shapes.len() > MOST_CLASSES || !are_numbered(alloc, shapes)? {
        return Ok(false);
    }
    if !are_of_application(shapes) || !are_class_names(maps) {
        return Ok(false);
    }
    Ok(are_fit(shapes, bodies))
}
