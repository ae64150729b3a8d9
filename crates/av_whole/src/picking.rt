ghost use Rattle.std.specs.Prelude.{◌+◌, ◌<◌, length, take, IfOk, OnOk};
ghost use Rattle.jv_world.specs.Whole.{AreMarks, IsWhole};
ghost use Rattle.jv_world.specs.Worlds.{AreNumbered};
ghost use Rattle.av_collected.specs.Parts.{IsPart};
ghost use Rattle.av_whole.specs.WholeClasses.{HasWholeClasses, IsWholeIn};

use jv_types::{Copied, Shape};
use jv_world::{HierRefusal, World, whole_classes};
use std::alloc::{AllocError, Global};

/// Adds a copy of the class at a place, where it is marked.
fn keep_at(
    kept: &mut Vec<Shape>,
    shapes: &[Shape],
    marks: &[bool],
    place: usize,
) -> Result<(), AllocError>
    requires numbered { AreNumbered shapes.now }
    requires marks { AreMarks (IsWhole shapes.now) (length shapes.now) marks.now }
    requires here { place < length shapes.now }
    ensures { OnOk result (IsPart (IsWholeIn shapes.now) (take place shapes.now) kept.old.items
        → IsPart (IsWholeIn shapes.now) (take (place + 1) shapes.now) kept.new.items) }
{
    if marks[place] {
        kept.push(shapes[place].copy()?)?;
    }
    Ok(())
}

/// Copies of the marked classes, in their order. Only memory can be wanting.
fn marked(alloc: Global, shapes: &[Shape], marks: &[bool]) -> Result<Vec<Shape>, AllocError>
    requires numbered { AreNumbered shapes.now }
    requires marks { AreMarks (IsWhole shapes.now) (length shapes.now) marks.now }
    ensures { IfOk result (λ kept. IsPart (IsWholeIn shapes.now) shapes.now kept.items) }
{
    let mut kept = Vec::new(alloc);
    for place in 0..shapes.len() {
        keep_at(&mut kept, shapes, marks, place)?;
    }
    Ok(kept)
}

/// The world of the whole classes of a list, in the order of the list (JVMS 5.3.5). Only memory can be wanting.
pub fn whole_world(alloc: Global, shapes: &[Shape]) -> Result<World, AllocError>
    requires { AreNumbered shapes.now }
    ensures { IfOk result (HasWholeClasses shapes.now) }
{
    let marks = whole_classes(alloc, shapes)?;
    let kept = marked(alloc, shapes, marks.as_slice())?;
    match World::build(alloc, kept) {
        Ok(world) => Ok(world),
        Err(HierRefusal::Memory) => Err(AllocError),
        Err(HierRefusal::Missing(_)) => unreachable!(),
        Err(HierRefusal::Circular(_)) => unreachable!(),
        Err(HierRefusal::SuperKind(_)) => unreachable!(),
    }
}
