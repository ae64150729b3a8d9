ghost use Rattle.std.specs.Prelude.{◌≡◌, ◌++◌, ℕ, List, map, Contains, IfOk};
ghost use Rattle.std.specs.List.{filter};
ghost use Rattle.jv_types.specs.declared.shapes.Shape.{Shape as ShapeValue};
ghost use Rattle.jv_world.specs.Worlds.{IsWorld};
ghost use Rattle.av_standin_of.specs.Worlds.{kept_class, standin_world};
ghost use Rattle.av_sketches.specs.Sketches.{made_class};
ghost use Rattle.av_new_world.specs.Conditions.{MayMakeWorld};
ghost use Rattle.av_standin_world.specs.Steps.{is_new_sketch, new_shape, shape_of};

use av_new_world::standins_make_a_world;
use av_sketches::{Sketch, SketchedMethod};
use av_sketching::in_place;
use jv_types::{Copied, MethodShape, Name, Seq, Shape};
use jv_world::{HierRefusal, World};
use std::alloc::{AllocError, Global};

/// A class of the world as it stands beside the stand-in: one of the application stays as it is. Only memory can be wanting.
fn kept_class(class: &Shape) -> Result<Shape, AllocError>
    ensures { IfOk result (λ made. made ≡ kept_class class.now) }
{
    if class.application {
        return class.copy();
    }
    in_place(class)
}

/// The classes of the world as they stand beside the stand-in. Only memory can be wanting.
fn kept_classes(alloc: Global, world: &World) -> Result<Vec<Shape>, AllocError>
    ensures kept { IfOk result (λ made. made.items ≡ map kept_class world.now) }
    ensures world { IsWorld world.now }
{
    let mut kept = Vec::new(alloc);
    for class in world.shapes() {
        kept.push(kept_class(class)?)?;
    }
    Ok(kept)
}

/// The shapes of sketched methods. Only memory can be wanting.
fn method_shapes(alloc: Global, methods: &[SketchedMethod]) -> Result<Vec<MethodShape>, AllocError>
    ensures { IfOk result (λ made. made.items ≡ map shape_of methods.now) }
{
    let mut shapes = Vec::new(alloc);
    for method in methods {
        shapes.push(method.shape.copy()?)?;
    }
    Ok(shapes)
}

/// The superclass, if there is one. Only memory can be wanting.
fn parent_of(sketch: &Sketch) -> Result<Option<Name>, AllocError>
    ensures { IfOk result (λ made. made ≡ sketch.now.parent) }
{
    match &sketch.parent {
        None => Ok(None),
        Some(name) => Ok(Some(name.copy()?)),
    }
}

/// The shape of a class that a sketch stands for, with its members in the order of its file. Only memory can be wanting.
fn new_shape(alloc: Global, sketch: &Sketch) -> Result<Shape, AllocError>
    ensures { IfOk result (λ made. made ≡ new_shape sketch.now) }
{
    let methods = method_shapes(alloc, sketch.methods.as_slice())?;
    Ok(Shape {
        name: sketch.name.copy()?,
        flags: sketch.flags,
        parent: parent_of(sketch)?,
        interfaces: sketch.interfaces.copy()?,
        fields: sketch.fields.copy()?,
        methods: Seq::from_vec(methods),
        application: false,
    })
}

/// Whether the world has no class of the name of a sketch.
fn is_new(world: &World, sketch: &Sketch) -> bool
    ensures { result ≡ is_new_sketch world.now sketch.now }
{
    world.class(&sketch.name).is_none()
}

/// Shapes, and behind them those of classes that the world doesn't have, in the order of their files. Only memory can be
/// wanting.
fn with_new(kept: Vec<Shape>, world: &World, sketches: &[Sketch]) -> Result<Vec<Shape>, AllocError>
    ensures { IfOk result (λ made. made.items ≡ kept.items ++ map new_shape (filter (is_new_sketch world.now) sketches.now)) }
{
    let alloc = *kept.allocator();
    let mut shapes = kept;
    for sketch in sketches {
        if is_new(world, sketch) {
            shapes.push(new_shape(alloc, sketch)?)?;
        }
    }
    Ok(shapes)
}

/// The world of a stand-in: the classes of a world in their order, those of the application as they are and collected ones
/// as their stand-ins are, and behind them the other classes of the stand-in, in the order of their files. Only memory can
/// be wanting.
pub fn standin_world(alloc: Global, world: &World, sketches: &[Sketch]) -> Result<World, AllocError>
    requires { (dims : ℕ) × MayMakeWorld world.now dims (map (made_class dims) sketches.now) }
    ensures { IfOk result (λ made. (dims : ℕ) → made ≡ standin_world world.now (map (made_class dims) sketches.now)) }
{
    standins_make_a_world();
    let kept = kept_classes(alloc, world)?;
    let shapes = with_new(kept, world, sketches)?;
    match World::build(alloc, shapes) {
        Ok(made) => Ok(made),
        Err(HierRefusal::Memory) => Err(AllocError),
        Err(HierRefusal::Missing(_)) => unreachable!(),
        Err(HierRefusal::Circular(_)) => unreachable!(),
        Err(HierRefusal::SuperKind(_)) => unreachable!(),
    }
}
