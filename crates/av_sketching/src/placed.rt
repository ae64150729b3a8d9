ghost use Rattle.std.specs.Prelude.{◌≡◌, IfOk, map};
ghost use Rattle.av_standin_of.specs.Worlds.{in_place};
ghost use Rattle.av_sketching.specs.Steps.{sketched_shape};

use crate::collected::{all_sketched, kept_fields, kept_flags, parent_of};
use av_sketches::SketchedMethod;
use jv_types::{Copied, MethodShape, Seq, Shape};
use std::alloc::AllocError;

/// The shapes of sketched methods. Only memory can be wanting.
fn shapes_of(methods: Vec<SketchedMethod>) -> Result<Vec<MethodShape>, AllocError>
    ensures { IfOk result (λ made. made.items ≡ map sketched_shape methods.items) }
{
    let mut shapes = Vec::new(*methods.allocator());
    for method in methods {
        shapes.push(method.shape)?;
    }
    Ok(shapes)
}

/// A collected class as it stands in the stand-in's world: its members in their old places, and the extra constructor
/// behind them. Only memory can be wanting.
#[tactic(auto, using(crate::proofs::Shaped::placed_methods))]
pub fn in_place(class: &Shape) -> Result<Shape, AllocError>
    ensures { IfOk result (λ made. made ≡ in_place class.now) }
{
    let fields = kept_fields(class)?;
    let methods = shapes_of(all_sketched(class)?)?;
    Ok(Shape {
        name: class.name.copy()?,
        flags: kept_flags(class),
        parent: parent_of(class)?,
        interfaces: class.interfaces.copy()?,
        fields: Seq::from_vec(fields),
        methods: Seq::from_vec(methods),
        application: class.application,
    })
}
