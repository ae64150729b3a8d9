ghost use Rattle.std.specs.Prelude.{◌≡◌, ℕ, ◌<◌, ◌^◌, IfOk};
ghost use Rattle.calls_form.specs.Classes.{named_of};
ghost use Rattle.calls_form.specs.ClassesBodies.{target_in};
ghost use Rattle.calls_form.specs.ClassesPlaces.{HasPlaces, all_texts, field_target, is_object_init, method_target, target_of};

use crate::class_of_places::{Label, MemberKey, find_place};
use crate::class_of_pool::{Member, class_at, member_at};
use crate::outline::Entry;
use crate::target::Target;
use std::alloc::{AllocError, Global};
use std::collections::BTreeMap;

/// The members of a class of one sort, and the place of each.
#[derive(Clone, Copy)]
pub struct Members<'a> {
    pub labels: &'a [Label<'a>],
    pub places: &'a BTreeMap<MemberKey, u16>,
}

/// The field of this class that a member is, if it is one.
fn field_target(own: &[u8], fields: Members, member: Member) -> Result<Option<Target>, AllocError>
    requires { HasPlaces (all_texts fields.labels.now) fields.places.now }
    ensures { IfOk result (λ o. o ≡ field_target own.now (all_texts fields.entry.labels.now) (named_of member.entry)) }
{
    if member.class.as_slice() != own {
        return Ok(None);
    }
    match find_place(fields.labels, fields.places, member.name, member.desc)? {
        None => Ok(None),
        Some(place) => Ok(Some(Target::Field(place))),
    }
}

/// Whether a member is the constructor of `java/lang/Object`.
fn is_object_init(member: Member) -> bool
    ensures { result ≡ is_object_init (named_of member.entry) }
{
    member.class.as_slice() == b"java/lang/Object".as_slice()
        && (member.name.as_slice() == b"<init>".as_slice()
            && member.desc.as_slice() == b"()V".as_slice())
}

/// The method of this class that a member is, or the constructor of `java/lang/Object`.
fn method_target(own: &[u8], methods: Members, member: Member) -> Result<Option<Target>, AllocError>
    requires { HasPlaces (all_texts methods.labels.now) methods.places.now }
    ensures { IfOk result (λ o. o ≡ method_target own.now (all_texts methods.entry.labels.now) (named_of member.entry)) }
{
    if member.class.as_slice() != own {
        return if is_object_init(member) {
            Ok(Some(Target::ObjectInit))
        } else {
            Ok(None)
        };
    }
    match find_place(methods.labels, methods.places, member.name, member.desc)? {
        None => Ok(None),
        Some(place) => Ok(Some(Target::Method(place))),
    }
}

/// What an index of the pool names, where an instruction may name it.
#[tactic(auto, unfolding(crate::specs::ClassesPlaces::target_of, crate::specs::ClassesPlaces::entry_target))]
fn target_at(
    pool: &[Entry],
    own: &[u8],
    fields: Members,
    methods: Members,
    index: u16,
) -> Result<Option<Target>, AllocError>
    requires fields_placed { HasPlaces (all_texts fields.labels.now) fields.places.now }
    requires methods_placed { HasPlaces (all_texts methods.labels.now) methods.places.now }
    ensures { IfOk result (λ o. o ≡ target_of pool.now own.now (all_texts fields.entry.labels.now) (all_texts methods.entry.labels.now) index) }
{
    match pool.get(usize::from(index)) {
        Some(Entry::Class(_)) => match class_at(pool, index) {
            Some(name) if name.as_slice() == own => Ok(Some(Target::This)),
            _ => Ok(None),
        },
        Some(Entry::Fieldref(class, pair)) => match member_at(pool, *class, *pair) {
            Some(member) => field_target(own, fields, member),
            None => Ok(None),
        },
        Some(Entry::Methodref(class, pair)) => match member_at(pool, *class, *pair) {
            Some(member) => method_target(own, methods, member),
            None => Ok(None),
        },
        _ => Ok(None),
    }
}

/// What each index of the pool names, where an instruction may name it.
pub fn read_targets(
    alloc: Global,
    pool: &[Entry],
    own: &[u8],
    fields: Members,
    methods: Members,
) -> Result<Vec<Option<Target>>, AllocError>
    requires fields_placed { HasPlaces (all_texts fields.labels.now) fields.places.now }
    requires methods_placed { HasPlaces (all_texts methods.labels.now) methods.places.now }
    ensures { IfOk result (λ t. (i : ℕ) → i < 2 ^ 16
        → target_in t.items i ≡ target_of pool.now own.now (all_texts fields.entry.labels.now) (all_texts methods.entry.labels.now) i) }
{
    let count = pool.len().min(65536);
    let mut targets = Vec::with_capacity(alloc, count)?;
    for index in 0..count {
        targets.push(target_at(pool, own, fields, methods, index as u16)?)?;
    }
    Ok(targets)
}
