ghost use Rattle.std.specs.Prelude.{◌≡◌, ◌<◌, ◌+◌, ◌≤◌, ◌^◌, ◌++◌, [], ◌∷◌, ℕ, List, Some, length, slice_get, slice_set, slice_index_or, IsTrue, ◌↔◌, IfOk, OnOk};
ghost use Rattle.jv_types.specs.declared.shapes.Shape.{Shape as ShapeValue};
ghost use Rattle.jv_fix.specs.Order.{IsSet};
ghost use Rattle.av_collected.specs.Rules.{IsOpenInstance};
ghost use Rattle.av_tables.specs.declared.member.Member.{Member as MemberValue};
ghost use Rattle.av_tables.specs.Tables.{ArePlaces, DeclaresMethod, ShapeAt};
ghost use Rattle.av_tables.specs.Steps.{Anywhere, AreMembers, AreSmall, HaveSignatures, InClassesBelow, InPlacesBelow, known};

use crate::classes::{Classes, shape_at};
use crate::member::Member;
use crate::signature::Signature;
use crate::signatures::signature_of;
use crate::sorted::place_of;
use jv_resolve::{is_private, is_static};
use jv_types::{MethodShape, Seq, Shape};
use std::alloc::{AllocError, Global};

/// Whether a method is an instance method that is not private.
pub fn is_open_instance(method: &MethodShape) -> bool
    ensures { IsTrue result ↔ IsOpenInstance method.now }
{
    !is_private(method.flags) && !is_static(method.flags)
}

/// So many empty lists. Only memory can be wanting.
fn empty_rows(alloc: Global, count: usize) -> Result<Vec<Seq<Member>>, AllocError>
    ensures count { IfOk result (λ rows. length rows.items ≡ count) }
    ensures empty { IfOk result (λ rows. (s : ℕ) (row : List MemberValue) → slice_get rows.items s ≡ Some row → row ≡ []) }
{
    let mut rows = Vec::new(alloc);
    for place in 0..count {
        rows.push(Seq::new(alloc))?;
    }
    Ok(rows)
}

/// Adds a method to a list.
fn add_member(rows: &mut Vec<Seq<Member>>, at: usize, member: Member) -> Result<(), AllocError>
    requires { at < length rows.old.items }
    ensures { OnOk result (rows.new.items ≡ slice_set rows.old.items at (slice_index_or rows.old.items at [] ++ member ∷ [])) }
{
    let row = &mut rows[at];
    row.push(member)?;
    Ok(())
}

/// Adds a method to the list of its signature, where it is an instance method that is not private.
fn note_method(
    classes: &Classes,
    method: &MethodShape,
    member: Member,
    rows: &mut Vec<Seq<Member>>,
) -> Result<(), AllocError>
    requires rising { IsSet ⟦<Signature as Ord>⟧.cmp classes.now.signatures.items }
    requires covered { HaveSignatures classes.now.files.now classes.now.signatures.items }
    requires here { DeclaresMethod (known classes.now) member.class member.place method.now }
    requires before { AreMembers (InPlacesBelow member.class member.place) (known classes.now) rows.old.items }
    ensures { OnOk result (AreMembers (InPlacesBelow member.class (member.place + 1)) (known classes.now) rows.new.items) }
{
    if !is_open_instance(method) {
        return Ok(());
    }
    let signature = signature_of(method)?;
    match place_of(classes.signatures.as_slice(), &signature) {
        None => Ok(()),
        Some(at) => add_member(rows, at, member),
    }
}

/// Adds the methods of a class to the lists of their signatures.
fn note_methods(
    classes: &Classes,
    class: usize,
    shape: &Shape,
    rows: &mut Vec<Seq<Member>>,
) -> Result<(), AllocError>
    requires rising { IsSet ⟦<Signature as Ord>⟧.cmp classes.now.signatures.items }
    requires covered { HaveSignatures classes.now.files.now classes.now.signatures.items }
    requires here { ShapeAt (known classes.now) class shape.now }
    requires small { length shape.now.methods < 2 ^ 16 }
    requires before { AreMembers (InClassesBelow class) (known classes.now) rows.old.items }
    ensures { OnOk result (AreMembers (InClassesBelow (class + 1)) (known classes.now) rows.new.items) }
{
    let methods = shape.methods.as_slice();
    for place in 0..methods.len() {
        let member = Member {
            class,
            place: place as u16,
        };
        note_method(classes, &methods[place], member, rows)?;
    }
    Ok(())
}

/// Adds the methods of a class to the lists of their signatures, where its shape is known.
fn note_class(
    classes: &Classes,
    class: usize,
    rows: &mut Vec<Seq<Member>>,
) -> Result<(), AllocError>
    requires rising { IsSet ⟦<Signature as Ord>⟧.cmp classes.now.signatures.items }
    requires covered { HaveSignatures classes.now.files.now classes.now.signatures.items }
    requires small { AreSmall classes.now.files.now }
    requires before { AreMembers (InClassesBelow class) (known classes.now) rows.old.items }
    ensures { OnOk result (AreMembers (InClassesBelow (class + 1)) (known classes.now) rows.new.items) }
{
    match shape_at(classes, class) {
        None => Ok(()),
        Some(shape) => note_methods(classes, class, shape, rows),
    }
}

/// By the number of a signature, the instance methods that have it and are not private. Only memory can be wanting.
pub fn members_of(alloc: Global, classes: &Classes) -> Result<Vec<Seq<Member>>, AllocError>
    requires rising { IsSet ⟦<Signature as Ord>⟧.cmp classes.now.signatures.items }
    requires covered { HaveSignatures classes.now.files.now classes.now.signatures.items }
    requires small { AreSmall classes.now.files.now }
    requires places { ArePlaces classes.now.names.items classes.now.files.now classes.now.places.items }
    ensures { IfOk result (λ rows. AreMembers Anywhere (known classes.now) rows.items) }
{
    let mut rows = empty_rows(alloc, classes.signatures.len())?;
    for class in 0..classes.names.len() {
        note_class(classes, class, &mut rows)?;
    }
    Ok(rows)
}
