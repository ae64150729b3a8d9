ghost use Rattle.std.specs.Prelude.{◌≡◌, ◌<◌, ◌+◌, ℕ, Option, None, length, slice_get, Some, IfOk};
ghost use Rattle.std.specs.Ordering.{nat_cmp};
ghost use Rattle.std.specs.Cmp.Lexicographic.{slice_cmp};
ghost use Rattle.jv_fix.specs.Order.{IsSet};
ghost use Rattle.av_tables.specs.Tables.{ArePlaces};
ghost use Rattle.av_tables.specs.Steps.{ArePlacesBelow};

use crate::read_file::ReadFile;
use crate::sorted::place_of;
use jv_types::Name;
use std::alloc::{AllocError, Global};

/// So many classes without a file. Only memory can be wanting.
fn no_places(alloc: Global, count: usize) -> Result<Vec<Option<usize>>, AllocError>
    ensures count { IfOk result (λ places. length places.items ≡ count) }
    ensures none { IfOk result (λ places. (c : ℕ) (place : Option ℕ) → slice_get places.items c ≡ Some place → place ≡ None) }
{
    let mut places = Vec::new(alloc);
    for class in 0..count {
        places.push(None)?;
    }
    Ok(places)
}

/// Notes the place of a file at the number of its class, where the class has one.
fn note_file(names: &[Name], files: &[ReadFile], at: usize, places: &mut Vec<Option<usize>>)
    requires rising { IsSet (slice_cmp nat_cmp) names.now }
    requires here { at < length files.now }
    requires before { ArePlacesBelow at names.now files.now places.old.items }
    ensures { ArePlacesBelow (at + 1) names.now files.now places.new.items }
{
    if let Some(class) = place_of(names, files[at].name()) {
        places[class] = Some(at);
    }
}

/// The place of the file of each class, where it has one. Only memory can be wanting.
pub fn places_of(
    alloc: Global,
    names: &[Name],
    files: &[ReadFile],
) -> Result<Vec<Option<usize>>, AllocError>
    requires { IsSet (slice_cmp nat_cmp) names.now }
    ensures { IfOk result (λ places. ArePlaces names.now files.now places.items) }
{
    let mut places = no_places(alloc, names.len())?;
    for at in 0..files.len() {
        note_file(names, files, at, &mut places);
    }
    Ok(places)
}
