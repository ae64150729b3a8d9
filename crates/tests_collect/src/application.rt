ghost use Rattle.std.specs.Prelude.{IfOk};
ghost use Rattle.av_collected.specs.Conditions.{AreGiven};

use crate::codes::body_of;
use crate::given::may_be_given;
use av_collected::MethodBody;
use jv_types::{Copied, Name, Shape};
use std::alloc::Global;
use std::test::Fail;
use tests_shapes::{name_of, shape_of};

/// What collection is given of an application.
#[derive(Drop)]
pub struct App {
    pub shapes: Vec<Shape>,
    pub maps: Vec<Name>,
    pub bodies: Vec<MethodBody>,
}

/// What the codes of an application name.
#[derive(Drop)]
struct Codes {
    maps: Vec<Name>,
    bodies: Vec<MethodBody>,
}

/// The classes of a text, which may be none.
fn shapes_of(alloc: Global, text: &str) -> Result<Vec<Shape>, Fail> {
    let mut shapes = Vec::new(alloc);
    for word in text.split(' ') {
        if !word.is_empty() {
            shapes.push(shape_of(alloc, word)?)?;
        }
    }
    Ok(shapes)
}

/// Adds what a word says: a type in a stack map, or a code of the first method of this class.
fn add_code(alloc: Global, class: &Name, word: &str, codes: &mut Codes) -> Result<(), Fail> {
    let (kind, text) = word.split_once('@').ok_or("a word with a sign @")?;
    if kind == "map" {
        codes.maps.push(name_of(alloc, text)?)?;
        return Ok(());
    }
    codes.bodies.push(MethodBody {
        class: class.copy()?,
        index: 0,
        body: body_of(alloc, kind, text)?,
    })?;
    Ok(())
}

/// What the words of a text say of the first method of this class.
fn codes_of(alloc: Global, class: &Name, text: &str) -> Result<Codes, Fail> {
    let mut codes = Codes {
        maps: Vec::new(alloc),
        bodies: Vec::new(alloc),
    };
    for word in text.split(' ') {
        if !word.is_empty() {
            add_code(alloc, class, word, &mut codes)?;
        }
    }
    Ok(codes)
}

/// The name of the first class, and an empty name where there is none.
fn first_name(alloc: Global, shapes: &[Shape]) -> Result<Name, Fail> {
    match shapes.first() {
        None => Ok(name_of(alloc, "")?),
        Some(shape) => Ok(shape.name.copy()?),
    }
}

/// The application of two texts: its classes, and what the first method of the first class names.
pub fn app_of(alloc: Global, classes: &str, codes: &str) -> Result<App, Fail>
    ensures { IfOk result (λ app. AreGiven (record { shapes = app.shapes.items; maps = app.maps.items; bodies = app.bodies.items })) }
{
    let shapes = shapes_of(alloc, classes)?;
    let Codes { maps, bodies } = codes_of(alloc, &first_name(alloc, &shapes)?, codes)?;
    if !may_be_given(alloc, &shapes, &maps, &bodies)? {
        return Err(Fail::from("what collection may be given"));
    }
    Ok(App {
        shapes,
        maps,
        bodies,
    })
}
