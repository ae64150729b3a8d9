ghost use Rattle.std.specs.Prelude.{◌≡◌, ◌<◌, ◌+◌, ◌^◌, length, Contains, IfOk, OnOk};
ghost use Rattle.std.specs.Ordering.{nat_cmp};
ghost use Rattle.std.specs.Cmp.Lexicographic.{slice_cmp};
ghost use Rattle.jv_types.specs.declared.shapes.Shape.{Shape as ShapeValue};
ghost use Rattle.jv_fix.specs.Order.{IsSet};
ghost use Rattle.av_tables.specs.Steps.{AreSmall, known};
ghost use Rattle.av_tables.specs.Tables.{ShapeAt};
ghost use Rattle.av_forcing.specs.declared.fact.RoundFact.TheVariants as facts;
ghost use Rattle.av_round.specs.Steps.{AreEntriesBelow, ArePlacesBelow, AreThere, IsEntryOf};

use crate::class_items::ClassItems;
use av_forcing::RoundFact;
use av_tables::{Classes, shape_at};
use jv_fix::Found;
use jv_types::{Copied, Seq};
use std::alloc::{AllocError, Global};

/// The places of the fields of a class that were found, among so many. Only memory can be wanting.
fn fields_found(
    alloc: Global,
    found: &Found<RoundFact>,
    class: usize,
    count: usize,
) -> Result<Vec<u16>, AllocError>
    requires { count < 2 ^ 16 }
    ensures { IfOk result (λ places. ArePlacesBelow (λ place. Contains found.now (facts.Field class place)) count places.items) }
{
    let mut places = Vec::new(alloc);
    for place in 0..count as u16 {
        if found.has(&RoundFact::Field(class, place)) {
            places.push(place)?;
        }
    }
    Ok(places)
}

/// The places of the methods of a class that were found, among so many. Only memory can be wanting.
fn methods_found(
    alloc: Global,
    found: &Found<RoundFact>,
    class: usize,
    count: usize,
) -> Result<Vec<u16>, AllocError>
    requires { count < 2 ^ 16 }
    ensures { IfOk result (λ places. ArePlacesBelow (λ place. Contains found.now (facts.Method class place)) count places.items) }
{
    let mut places = Vec::new(alloc);
    for place in 0..count as u16 {
        if found.has(&RoundFact::Method(class, place)) {
            places.push(place)?;
        }
    }
    Ok(places)
}

/// How many fields the class of a number declares: none, where it has no shape.
fn field_count(classes: &Classes, class: usize) -> usize
    requires { AreSmall classes.now.files.now }
    ensures small { result < 2 ^ 16 }
    ensures same { (shape : ShapeValue) → ShapeAt (known classes.now) class shape → length shape.fields ≡ result }
{
    match shape_at(classes, class) {
        None => 0,
        Some(shape) => shape.fields.len(),
    }
}

/// How many methods the class of a number declares: none, where it has no shape.
fn method_count(classes: &Classes, class: usize) -> usize
    requires { AreSmall classes.now.files.now }
    ensures small { result < 2 ^ 16 }
    ensures same { (shape : ShapeValue) → ShapeAt (known classes.now) class shape → length shape.methods ≡ result }
{
    match shape_at(classes, class) {
        None => 0,
        Some(shape) => shape.methods.len(),
    }
}

/// A class with the places of its members that were found. Only memory can be wanting.
fn entry_of(
    alloc: Global,
    classes: &Classes,
    found: &Found<RoundFact>,
    class: usize,
) -> Result<ClassItems, AllocError>
    requires here { class < length classes.now.names.items }
    requires small { AreSmall classes.now.files.now }
    requires there { AreThere (known classes.now) found.now }
    ensures { IfOk result (IsEntryOf (known classes.now) found.now class) }
{
    let names = classes.names.as_slice();
    let name = names[class].copy()?;
    let field_places = fields_found(alloc, found, class, field_count(classes, class))?;
    let method_places = methods_found(alloc, found, class, method_count(classes, class))?;
    let fields = Seq::from_vec(field_places);
    let methods = Seq::from_vec(method_places);
    Ok(ClassItems {
        name,
        fields,
        methods,
    })
}

/// Adds a class, where it was found.
fn push_entry(
    alloc: Global,
    classes: &Classes,
    found: &Found<RoundFact>,
    class: usize,
    out: &mut Vec<ClassItems>,
) -> Result<(), AllocError>
    requires rising { IsSet (slice_cmp nat_cmp) classes.now.names.items }
    requires here { class < length classes.now.names.items }
    requires small { AreSmall classes.now.files.now }
    requires there { AreThere (known classes.now) found.now }
    ensures { OnOk result (AreEntriesBelow (known classes.now) found.now class out.old.items
        → AreEntriesBelow (known classes.now) found.now (class + 1) out.new.items) }
{
    if !found.has(&RoundFact::Class(class)) {
        return Ok(());
    }
    let entry = entry_of(alloc, classes, found, class)?;
    out.push(entry)?;
    Ok(())
}

/// The classes that were found, with their members that were found, in rising order of their names. Only memory can be
/// wanting.
pub fn entries_of(
    alloc: Global,
    classes: &Classes,
    found: &Found<RoundFact>,
) -> Result<Vec<ClassItems>, AllocError>
    requires rising { IsSet (slice_cmp nat_cmp) classes.now.names.items }
    requires small { AreSmall classes.now.files.now }
    requires there { AreThere (known classes.now) found.now }
    ensures { IfOk result (λ entries. AreEntriesBelow (known classes.now) found.now (length classes.now.names.items) entries.items) }
{
    let mut entries = Vec::new(alloc);
    for class in 0..classes.names.len() {
        push_entry(alloc, classes, found, class, &mut entries)?;
    }
    Ok(entries)
}
