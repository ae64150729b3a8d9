ghost use Rattle.std.specs.Prelude.{◌≡◌, ◌<◌, ◌^◌, Some, length, IfOk, IfSome, IfNone};
ghost use Rattle.std.specs.List.{range_with_len};
ghost use Rattle.std.specs.Option.{option_cmp};
ghost use Rattle.jv_world.specs.Worlds.{AreNumbered};
ghost use Rattle.jv_world.specs.MemberPlaces.{IsFieldOf, IsFirstPlace, IsMethodOf, NoneIn};
ghost use Rattle.jv_world.specs.Steps.Ordered.{AreIndexed, AreMembers, AreOrdered, field_key, field_key_cmp, key_at, method_key, method_key_cmp, place_cmp};

use jv_types::{Desc, FieldShape, MethodDesc, MethodShape, Name, Shape};
use std::alloc::{AllocError, Global};
use std::cmp::Ordering;

/// The places of a class's methods and those of its fields, each by name, by descriptor and by place.
#[derive(Drop)]
pub struct Members {
    methods: Vec<u16>,
    fields: Vec<u16>,
}

/// Which comes first: the method, or one of this name and descriptor.
fn compare_method(method: &MethodShape, name: &Name, desc: &MethodDesc) -> Ordering
    ensures { result ≡ method_key_cmp (method_key method.now) (name.now, desc.now) }
{
    match method.name.cmp(name) {
        Ordering::Equal => method.desc.cmp(desc),
        order => order,
    }
}

/// Which comes first: the field, or one of this name and type.
fn compare_field(field: &FieldShape, name: &Name, desc: &Desc) -> Ordering
    ensures { result ≡ field_key_cmp (field_key field.now) (name.now, desc.now) }
{
    match field.name.cmp(name) {
        Ordering::Equal => field.desc.cmp(desc),
        order => order,
    }
}

/// Which comes first: the method at a place, or one of this name and descriptor.
fn compare_method_at(
    methods: &[MethodShape],
    place: u16,
    name: &Name,
    desc: &MethodDesc,
) -> Ordering
    ensures { result ≡ option_cmp method_key_cmp (key_at method_key methods.now place) (Some (name.now, desc.now)) }
{
    match methods.get(usize::from(place)) {
        None => Ordering::Less,
        Some(method) => compare_method(method, name, desc),
    }
}

/// Which comes first: the field at a place, or one of this name and type.
fn compare_field_at(fields: &[FieldShape], place: u16, name: &Name, desc: &Desc) -> Ordering
    ensures { result ≡ option_cmp field_key_cmp (key_at field_key fields.now place) (Some (name.now, desc.now)) }
{
    match fields.get(usize::from(place)) {
        None => Ordering::Less,
        Some(field) => compare_field(field, name, desc),
    }
}

/// Which method comes first of those at two places, by name and descriptor.
fn compare_method_keys(methods: &[MethodShape], a: u16, b: u16) -> Ordering
    ensures { result ≡ option_cmp method_key_cmp (key_at method_key methods.now a) (key_at method_key methods.now b) }
{
    match (methods.get(usize::from(a)), methods.get(usize::from(b))) {
        (None, None) => Ordering::Equal,
        (None, Some(_)) => Ordering::Less,
        (Some(_), None) => Ordering::Greater,
        (Some(method), Some(other)) => compare_method(method, &other.name, &other.desc),
    }
}

/// Which method comes first of those at two places: by name, by descriptor and by place.
fn compare_methods(methods: &[MethodShape], a: u16, b: u16) -> Ordering
    ensures { result ≡ place_cmp method_key_cmp method_key methods.now a b }
{
    compare_method_keys(methods, a, b).then(a.cmp(&b))
}

/// Which field comes first of those at two places, by name and descriptor.
fn compare_field_keys(fields: &[FieldShape], a: u16, b: u16) -> Ordering
    ensures { result ≡ option_cmp field_key_cmp (key_at field_key fields.now a) (key_at field_key fields.now b) }
{
    match (fields.get(usize::from(a)), fields.get(usize::from(b))) {
        (None, None) => Ordering::Equal,
        (None, Some(_)) => Ordering::Less,
        (Some(_), None) => Ordering::Greater,
        (Some(field), Some(other)) => compare_field(field, &other.name, &other.desc),
    }
}

/// Which field comes first of those at two places: by name, by descriptor and by place.
fn compare_fields(fields: &[FieldShape], a: u16, b: u16) -> Ordering
    ensures { result ≡ place_cmp field_key_cmp field_key fields.now a b }
{
    compare_field_keys(fields, a, b).then(a.cmp(&b))
}

/// So many places, from 0 on. Only memory can be wanting.
fn all_places(alloc: Global, count: usize) -> Result<Vec<u16>, AllocError>
    requires { count < 2 ^ 16 }
    ensures { IfOk result (λ places. places.items ≡ range_with_len 0 count) }
{
    let mut places = Vec::with_capacity(alloc, count)?;
    for place in 0..count {
        places.push(place as u16)?;
    }
    Ok(places)
}

/// The places of these methods, in order. Only memory can be wanting.
fn places_of_methods(alloc: Global, methods: &[MethodShape]) -> Result<Vec<u16>, AllocError>
    requires { length methods.now < 2 ^ 16 }
    ensures { IfOk result (λ places. AreOrdered method_key_cmp method_key methods.now places.items) }
{
    let mut places = all_places(alloc, methods.len())?;
    places.sort_unstable_by(|a, b| compare_methods(methods, *a, *b));
    Ok(places)
}

/// The places of these fields, in order. Only memory can be wanting.
fn places_of_fields(alloc: Global, fields: &[FieldShape]) -> Result<Vec<u16>, AllocError>
    requires { length fields.now < 2 ^ 16 }
    ensures { IfOk result (λ places. AreOrdered field_key_cmp field_key fields.now places.items) }
{
    let mut places = all_places(alloc, fields.len())?;
    places.sort_unstable_by(|a, b| compare_fields(fields, *a, *b));
    Ok(places)
}

/// The members of a class, found by name and descriptor. Only memory can be wanting.
fn members_of(alloc: Global, shape: &Shape) -> Result<Members, AllocError>
    requires methods { length shape.now.methods < 2 ^ 16 }
    requires fields { length shape.now.fields < 2 ^ 16 }
    ensures { IfOk result (AreMembers shape.now) }
{
    Ok(Members {
        methods: places_of_methods(alloc, shape.methods.as_slice())?,
        fields: places_of_fields(alloc, shape.fields.as_slice())?,
    })
}

/// The members of each class, found by name and descriptor. Only memory can be wanting.
pub fn all_members(alloc: Global, shapes: &[Shape]) -> Result<Vec<Members>, AllocError>
    requires { AreNumbered shapes.now }
    ensures { IfOk result (λ rows. AreIndexed shapes.now (length shapes.now) rows.items) }
{
    let mut rows = Vec::with_capacity(alloc, shapes.len())?;
    for shape in shapes {
        rows.push(members_of(alloc, shape)?)?;
    }
    Ok(rows)
}

/// The first place of a method with this name and descriptor, found by halves.
fn first_method(
    methods: &[MethodShape],
    places: &[u16],
    name: &Name,
    desc: &MethodDesc,
) -> Option<u16>
    requires { AreOrdered method_key_cmp method_key methods.now places.now }
    ensures found { IfSome result (IsFirstPlace (IsMethodOf name.now desc.now) methods.now) }
    ensures none { IfNone result (NoneIn (IsMethodOf name.now desc.now) methods.now) }
{
    let at = places.partition_point(|place| {
        compare_method_at(methods, *place, name, desc).is_lt()
    });
    let place = *places.get(at)?;
    if compare_method_at(methods, place, name, desc).is_eq() {
        Some(place)
    } else {
        None
    }
}

/// The first place of a field with this name and type, found by halves.
fn first_field(fields: &[FieldShape], places: &[u16], name: &Name, desc: &Desc) -> Option<u16>
    requires { AreOrdered field_key_cmp field_key fields.now places.now }
    ensures found { IfSome result (IsFirstPlace (IsFieldOf name.now desc.now) fields.now) }
    ensures none { IfNone result (NoneIn (IsFieldOf name.now desc.now) fields.now) }
{
    let at = places.partition_point(|place| {
        compare_field_at(fields, *place, name, desc).is_lt()
    });
    let place = *places.get(at)?;
    if compare_field_at(fields, place, name, desc).is_eq() {
        Some(place)
    } else {
        None
    }
}

impl Members {
    /// The first place of a method with this name and descriptor.
    pub fn method_place(&self, shape: &Shape, name: &Name, desc: &MethodDesc) -> Option<u16>
        requires { AreMembers shape.now self.now }
        ensures found { IfSome result (IsFirstPlace (IsMethodOf name.now desc.now) shape.now.methods) }
        ensures none { IfNone result (NoneIn (IsMethodOf name.now desc.now) shape.now.methods) }
    {
        let methods = shape.methods.as_slice();
        first_method(methods, self.methods.as_slice(), name, desc)
    }

    /// The first place of a field with this name and type.
    pub fn field_place(&self, shape: &Shape, name: &Name, desc: &Desc) -> Option<u16>
        requires { AreMembers shape.now self.now }
        ensures found { IfSome result (IsFirstPlace (IsFieldOf name.now desc.now) shape.now.fields) }
        ensures none { IfNone result (NoneIn (IsFieldOf name.now desc.now) shape.now.fields) }
    {
        first_field(shape.fields.as_slice(), self.fields.as_slice(), name, desc)
    }
}
