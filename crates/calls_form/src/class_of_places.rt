ghost use Rattle.std.specs.Prelude.{◌≡◌, ◌<◌, ◌^◌, length, IfOk};
ghost use Rattle.calls_form.specs.ClassesPlaces.{HasPlaces, AreApart, all_texts, place_of};

use crate::read_error::ReadError;
use jv_types::{Copied, Name};
use std::alloc::{AllocError, Global};
use std::collections::BTreeMap;

/// A member's name and descriptor.
#[derive(Clone, Copy)]
pub struct Label<'a> {
    pub name: &'a Name,
    pub desc: &'a Name,
}

/// What tells fields of a class apart, and methods (JVMS 4.5, 4.6).
#[derive(PartialEq, Eq, PartialOrd, Ord, Drop)]
pub struct MemberKey {
    pub name: Name,
    pub desc: Name,
}

/// The place of each member in the list. No two may share name and descriptor.
pub fn read_places(alloc: Global, labels: &[Label]) -> Result<BTreeMap<MemberKey, u16>, ReadError>
    requires { length labels.now < 2 ^ 16 }
    ensures places { IfOk result (HasPlaces (all_texts labels.now)) }
    ensures apart { IfOk result (λ _. AreApart (all_texts labels.now)) }
    ensures malformed { result ≡ Err ReadError.Malformed → AreApart (all_texts labels.now) → ⊥ }
{
    let mut places = BTreeMap::new(alloc);
    for (place, label) in labels.iter().enumerate() {
        let key = MemberKey {
            name: label.name.copy()?,
            desc: label.desc.copy()?,
        };
        if places.insert(key, place as u16)?.is_some() {
            return Err(ReadError::Malformed);
        }
    }
    Ok(places)
}

/// The place of the member with this name and descriptor, if there is one.
pub fn find_place(
    labels: &[Label],
    places: &BTreeMap<MemberKey, u16>,
    name: &Name,
    desc: &Name,
) -> Result<Option<u16>, AllocError>
    requires { HasPlaces (all_texts labels.now) places.now }
    ensures { IfOk result (λ o. o ≡ place_of (all_texts labels.now) name.now desc.now) }
{
    let key = MemberKey {
        name: name.copy()?,
        desc: desc.copy()?,
    };
    match places.get(&key) {
        None => Ok(None),
        Some(place) => Ok(Some(*place)),
    }
}
