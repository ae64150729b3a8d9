ghost use Rattle.std.specs.Prelude.{◌≡◌, ◌≢◌, ◌+◌, ◌^◌, ◌<◌, ◌↔◌, Some, length, map, option_copied, IsTrue, IfSome, IfNone, Contains};
ghost use Rattle.jv_types.specs.declared.shapes.Shape.{Shape as ShapeValue};
ghost use Rattle.jv_world.specs.Worlds.{AreNumbered, HasRightSupers, IsInterface, IsFinal};
ghost use Rattle.jv_world.specs.Steps.Causes.{lesser_name, AreInterfaces, AreRightBefore, AreRising, ExtendsObject, HasItself, HasRightSuperclass, IsAbsentBefore, IsLeastOf, IsOwnBefore, IsWrongBefore, TakesAbsent, TakesAbsentParent};

use crate::lists::contains;
use crate::names::Names;
use bitflags::Flags;
use jv_types::{Access, ClassId, Name, Shape};

/// The lesser of the best name so far and this one.
fn lesser<'a>(best: Option<&'a Name>, name: &'a Name) -> &'a Name
    ensures { Some result.now ≡ lesser_name (option_copied best.entry) name.now }
{
    match best {
        None => name,
        Some(other) => { if other.cmp(name).is_gt() { name } else { other } }
    }
}

/// The lesser of the best name so far and this one, if no class has it.
fn or_absent<'a>(best: Option<&'a Name>, name: &'a Name, names: &Names) -> Option<&'a Name>
    ensures { TakesAbsent names.now name.now (option_copied best.entry) (option_copied result) }
{
    match names.place(name) {
        Some(_) => best,
        None => Some(lesser(best, name)),
    }
}

/// The lesser of the best name so far and that of the superclass, if no class has it.
fn or_absent_parent<'a>(best: Option<&'a Name>, shape: &'a Shape, names: &Names) -> Option<&'a Name>
    ensures { TakesAbsentParent names.now shape.now.parent (option_copied best.entry) (option_copied result) }
{
    match &shape.parent {
        None => best,
        Some(parent) => or_absent(best, parent, names),
    }
}

/// The least of the best name so far and those of the supertypes of a class that aren't there.
fn or_absent_supers<'a>(
    best: Option<&'a Name>,
    shapes: &'a [Shape],
    place: usize,
    names: &Names,
) -> Option<&'a Name>
    requires here { place < length shapes.now }
    requires so_far { IsLeastOf (IsAbsentBefore shapes.now names.now place) (option_copied best) }
    ensures { IsLeastOf (IsAbsentBefore shapes.now names.now (place + 1)) (option_copied result) }
{
    let shape = &shapes[place];
    let mut least = or_absent_parent(best, shape, names);
    for name in shape.interfaces.as_slice() {
        least = or_absent(least, name, names);
    }
    least
}

/// The least name of a supertype that isn't there.
pub fn least_absent<'a>(shapes: &'a [Shape], names: &Names) -> Option<&'a Name>
    ensures { IsLeastOf (IsAbsentBefore shapes.now names.now (length shapes.now)) (option_copied result) }
{
    let mut best = None;
    for place in 0..shapes.len() {
        best = or_absent_supers(best, shapes, place, names);
    }
    best
}

/// Whether a class is an interface (JVMS table 4.1-B).
pub fn is_interface(shape: &Shape) -> bool
    ensures { IsTrue result ↔ IsInterface shape.now }
{
    shape.flags.contains(Access::INTERFACE)
}

/// Whether a class is final (JVMS table 4.1-B).
pub fn is_final(shape: &Shape) -> bool
    ensures { IsTrue result ↔ IsFinal shape.now }
{
    shape.flags.contains(Access::FINAL)
}

/// The shape of this name, if there is one.
fn shape_named<'a>(shapes: &'a [Shape], names: &Names, name: &Name) -> Option<&'a Shape>
    requires numbered { AreNumbered shapes.now }
    requires names { names.now ≡ map (λ s. s.name) shapes.now }
    ensures found { IfSome result (λ s. Contains shapes.now s.now × (s.now.name ≡ name.now)) }
    ensures none { IfNone result ((s : ShapeValue) → Contains shapes.now s → s.name ≢ name.now) }
{
    match names.place(name) {
        None => None,
        Some(place) => Some(&shapes[place]),
    }
}

/// Whether a class has a superclass unless it is Object, and that is neither an interface nor final.
fn has_right_superclass(shape: &Shape, shapes: &[Shape], names: &Names) -> bool
    requires numbered { AreNumbered shapes.now }
    requires names { names.now ≡ map (λ s. s.name) shapes.now }
    ensures { IsTrue result ↔ HasRightSuperclass shapes.now shape.now }
{
    match &shape.parent {
        None => shape.name.as_slice() == b"java/lang/Object".as_slice(),
        Some(name) => match shape_named(shapes, names, name) {
            None => true,
            Some(parent) => !is_interface(parent) && !is_final(parent),
        },
    }
}

/// Whether the class of this name, if it is there, is an interface.
fn names_interface(name: &Name, shapes: &[Shape], names: &Names) -> bool
    requires numbered { AreNumbered shapes.now }
    requires names { names.now ≡ map (λ s. s.name) shapes.now }
    ensures { IsTrue result ↔ ((other : ShapeValue) → Contains shapes.now other → other.name ≡ name.now → IsInterface other) }
{
    match shape_named(shapes, names, name) {
        None => true,
        Some(other) => is_interface(other),
    }
}

/// Whether the classes of these names, as far as they are there, are interfaces.
fn are_interfaces(wanted: &[Name], shapes: &[Shape], names: &Names) -> bool
    requires numbered { AreNumbered shapes.now }
    requires names { names.now ≡ map (λ s. s.name) shapes.now }
    ensures { IsTrue result ↔ AreInterfaces shapes.now wanted.now }
{
    for name in wanted {
        if !names_interface(name, shapes, names) {
            return false;
        }
    }
    true
}

/// Whether a class is no interface, or has Object as its superclass.
fn extends_object(shape: &Shape) -> bool
    ensures { IsTrue result ↔ ExtendsObject shape.now }
{
    if !is_interface(shape) {
        return true;
    }
    match &shape.parent {
        None => false,
        Some(name) => name.as_slice() == b"java/lang/Object".as_slice(),
    }
}

/// Whether the supertypes that a class names are of the right kinds (JVMS 4.1, 5.3.5).
pub fn has_right_supers(shape: &Shape, shapes: &[Shape], names: &Names) -> bool
    requires numbered { AreNumbered shapes.now }
    requires names { names.now ≡ map (λ s. s.name) shapes.now }
    ensures { IsTrue result ↔ HasRightSupers shapes.now shape.now }
{
    has_right_superclass(shape, shapes, names)
        && are_interfaces(shape.interfaces.as_slice(), shapes, names)
        && extends_object(shape)
}

/// The least name of a class whose supertypes are not all of the right kinds.
pub fn least_wrong<'a>(shapes: &'a [Shape], names: &Names) -> Option<&'a Name>
    requires numbered { AreNumbered shapes.now }
    requires names { names.now ≡ map (λ s. s.name) shapes.now }
    ensures least { IsLeastOf (IsWrongBefore shapes.now (length shapes.now)) (option_copied result) }
    ensures right { IfNone result (AreRightBefore shapes.now (length shapes.now)) }
{
    let mut best = None;
    for shape in shapes {
        if !has_right_supers(shape, shapes, names) {
            best = Some(lesser(best, &shape.name));
        }
    }
    best
}

/// Whether a class is in its own row.
pub fn has_itself(rows: &[Vec<ClassId>], place: usize) -> bool
    requires here { place < length rows.now }
    requires few { length rows.now < 2 ^ 32 }
    requires rising { AreRising rows.now }
    ensures { IsTrue result ↔ HasItself rows.now place }
{
    let class = ClassId {
        number: place as u32,
    };
    contains(rows[place].as_slice(), class)
}

/// The least name of a class that is in its own row.
pub fn least_circular<'a>(shapes: &'a [Shape], rows: &[Vec<ClassId>]) -> Option<&'a Name>
    requires count { length rows.now ≡ length shapes.now }
    requires few { length rows.now < 2 ^ 32 }
    requires rising { AreRising rows.now }
    ensures { IsLeastOf (IsOwnBefore shapes.now rows.now (length shapes.now)) (option_copied result) }
{
    let mut best = None;
    for (place, shape) in shapes.iter().enumerate() {
        if has_itself(rows, place) {
            best = Some(lesser(best, &shape.name));
        }
    }
    best
}
