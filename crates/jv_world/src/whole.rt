ghost use Rattle.std.specs.Prelude.{◌≡◌, ℕ, ◌<◌, ◌↔◌, List, Some, length, map, Contains, IsTrue, IfOk};
ghost use Rattle.jv_world.specs.Worlds.{AreNumbered, IsNamed, ProperSub};
ghost use Rattle.jv_world.specs.Steps.Building.{marked, Has, HaveSupers};
ghost use Rattle.jv_world.specs.Whole.{AreMarks, HasSupersThere, IsSound, IsWhole};

use crate::causes::{has_itself, has_right_supers};
use crate::closure::all_led;
use crate::links::links_of;
use crate::names::Names;
use jv_types::{ClassId, Name, Shape};
use std::alloc::{AllocError, Global};

/// Whether a class of the list has this name.
fn is_there(shapes: &[Shape], names: &Names, name: &Name) -> bool
    requires { names.now ≡ map (λ s. s.name) shapes.now }
    ensures { IsTrue result ↔ ((d : ℕ) × IsNamed shapes.now d name.now) }
{
    match names.place(name) {
        None => false,
        Some(_) => true,
    }
}

/// Whether classes of the list have these names.
fn are_there(shapes: &[Shape], names: &Names, wanted: &[Name]) -> bool
    requires { names.now ≡ map (λ s. s.name) shapes.now }
    ensures { IsTrue result ↔ ((name : List ℕ) → Contains wanted.now name → (d : ℕ) × IsNamed shapes.now d name) }
{
    for name in wanted {
        if !is_there(shapes, names, name) {
            return false;
        }
    }
    true
}

/// Whether the superclass of a class is there, if it names one.
fn is_parent_there(shapes: &[Shape], names: &Names, shape: &Shape) -> bool
    requires { names.now ≡ map (λ s. s.name) shapes.now }
    ensures { IsTrue result ↔ ((name : List ℕ) → shape.now.parent ≡ Some name → (d : ℕ) × IsNamed shapes.now d name) }
{
    match &shape.parent {
        None => true,
        Some(parent) => is_there(shapes, names, parent),
    }
}

/// Whether the supertypes that a class names are there.
fn has_supers_there(shapes: &[Shape], names: &Names, shape: &Shape) -> bool
    requires { names.now ≡ map (λ s. s.name) shapes.now }
    ensures { IsTrue result ↔ HasSupersThere shapes.now shape.now }
{
    is_parent_there(shapes, names, shape) && are_there(shapes, names, shape.interfaces.as_slice())
}

/// The proper supertypes of each class, as far as they are there. Only memory can be wanting.
fn all_supers(
    alloc: Global,
    shapes: &[Shape],
    names: &Names,
) -> Result<Vec<Vec<ClassId>>, AllocError>
    requires numbered { AreNumbered shapes.now }
    requires names { names.now ≡ map (λ s. s.name) shapes.now }
    ensures { IfOk result (λ rows. HaveSupers shapes.now rows.items) }
{
    let links = links_of(alloc, shapes, names)?;
    let rows = all_led(alloc, links.as_slice())?;
    Ok(rows)
}

/// Whether a class is in its own row of proper supertypes.
fn is_circular(shapes: &[Shape], rows: &[Vec<ClassId>], place: usize) -> bool
    requires numbered { AreNumbered shapes.now }
    requires supers { HaveSupers shapes.now rows.now }
    requires here { place < length shapes.now }
    ensures { IsTrue result ↔ ProperSub shapes.now place place }
{
    has_itself(rows, place)
}

/// Whether the supertypes that a class names are there and of the right kinds, and it is not its own proper
/// supertype.
fn is_sound(shapes: &[Shape], names: &Names, rows: &[Vec<ClassId>], place: usize) -> bool
    requires numbered { AreNumbered shapes.now }
    requires names { names.now ≡ map (λ s. s.name) shapes.now }
    requires supers { HaveSupers shapes.now rows.now }
    requires here { place < length shapes.now }
    ensures { IsTrue result ↔ IsSound shapes.now place }
{
    let shape = &shapes[place];
    if !has_supers_there(shapes, names, shape) {
        return false;
    }
    if !has_right_supers(shape, shapes, names) {
        return false;
    }
    !is_circular(shapes, rows, place)
}

/// Which classes are so. Only memory can be wanting.
fn sound_classes(
    alloc: Global,
    shapes: &[Shape],
    names: &Names,
    rows: &[Vec<ClassId>],
) -> Result<Vec<bool>, AllocError>
    requires numbered { AreNumbered shapes.now }
    requires names { names.now ≡ map (λ s. s.name) shapes.now }
    requires supers { HaveSupers shapes.now rows.now }
    ensures { IfOk result (λ marks. AreMarks (IsSound shapes.now) (length shapes.now) marks.items) }
{
    let mut marks = Vec::with_capacity(alloc, shapes.len())?;
    for place in 0..shapes.len() {
        marks.push(is_sound(shapes, names, rows, place))?;
    }
    Ok(marks)
}

/// Whether each of these classes is marked.
fn are_marked(marks: &[bool], classes: &[ClassId]) -> bool
    requires { (n : ℕ) → Has classes.now n → n < length marks.now }
    ensures { IsTrue result ↔ ((n : ℕ) → Has classes.now n → IsTrue (marked marks.now n)) }
{
    for class in classes {
        if !marks[class.number as usize] {
            return false;
        }
    }
    true
}

/// Whether a class and its proper supertypes are marked.
fn is_whole(shapes: &[Shape], marks: &[bool], rows: &[Vec<ClassId>], place: usize) -> bool
    requires marks { AreMarks (IsSound shapes.now) (length shapes.now) marks.now }
    requires supers { HaveSupers shapes.now rows.now }
    requires here { place < length shapes.now }
    ensures { IsTrue result ↔ IsWhole shapes.now place }
{
    if !marks[place] {
        return false;
    }
    are_marked(marks, rows[place].as_slice())
}

/// Which classes of a list are whole: they and all their supertypes are there, of the right kinds, and none is
/// its own proper supertype (JVMS 4.1, 5.3.5). Only memory can be wanting.
pub fn whole_classes(alloc: Global, shapes: &[Shape]) -> Result<Vec<bool>, AllocError>
    requires { AreNumbered shapes.now }
    ensures { IfOk result (λ marks. AreMarks (IsWhole shapes.now) (length shapes.now) marks.items) }
{
    let names = Names::of(alloc, shapes)?;
    let rows = all_supers(alloc, shapes, &names)?;
    let sound = sound_classes(alloc, shapes, &names, rows.as_slice())?;
    let mut marks = Vec::with_capacity(alloc, shapes.len())?;
    for place in 0..shapes.len() {
        marks.push(is_whole(shapes, sound.as_slice(), rows.as_slice(), place))?;
    }
    Ok(marks)
}
