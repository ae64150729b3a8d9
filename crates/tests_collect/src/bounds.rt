ghost use Rattle.std.specs.Prelude.{◌≡◌, IsTrue, min};
ghost use Rattle.std.specs.List.{list_all};
ghost use Rattle.jv_desc.specs.Texts.{ref_dims};
ghost use Rattle.av_collected.specs.Libraries.{IsLibraryShape};
ghost use Rattle.tests_collect.specs.Bounds.{has_small_field, has_small_method, has_small_parts, is_small_result, is_small_type};

use jv_types::{Desc, FieldShape, MethodDesc, MethodShape, RefType, Shape};

/// How many members of one kind a class may declare.
const MOST_MEMBERS: usize = 65_535;

/// How many dimensions a type has, and 65,535 where there are more.
pub fn capped_dims(of: &RefType) -> u16
    ensures { result ≡ min (ref_dims of.now) 65535 }
{
    match of {
        RefType::Class(_) => 0,
        RefType::PrimArray(_) => 1,
        RefType::Array(item) => capped_dims(item.get()).saturating_add(1),
    }
}

/// Whether a type has at most 255 dimensions.
#[tactic(auto, unfolding(crate::specs::Bounds::is_small_type))]
pub fn is_small_type(desc: &Desc) -> bool
    ensures { result ≡ is_small_type desc.now }
{
    match desc {
        Desc::Prim(_) => true,
        Desc::Ref(of) => capped_dims(of) <= 255,
    }
}

/// Whether the result, where there is one, has at most 255 dimensions.
fn is_small_result(desc: &Option<Desc>) -> bool
    ensures { result ≡ is_small_result desc.now }
{
    match desc {
        None => true,
        Some(of) => is_small_type(of),
    }
}

/// Whether types have at most 255 dimensions.
fn are_small_types(types: &[Desc]) -> bool
    ensures { result ≡ list_all is_small_type types.now }
{
    types.iter().all(|of| is_small_type(of))
}

/// Whether each parameter and the result have at most 255 dimensions.
#[tactic(auto, unfolding(crate::specs::Bounds::has_small_parts))]
pub fn has_small_parts(desc: &MethodDesc) -> bool
    ensures { result ≡ has_small_parts desc.now }
{
    are_small_types(desc.params.as_slice()) && is_small_result(&desc.result)
}

/// Whether the type of a field has at most 255 dimensions.
#[tactic(auto, unfolding(crate::specs::Bounds::has_small_field))]
fn has_small_field(field: &FieldShape) -> bool
    ensures { result ≡ has_small_field field.now }
{
    is_small_type(&field.desc)
}

/// Whether each type in the descriptor of a method has at most 255 dimensions.
#[tactic(auto, unfolding(crate::specs::Bounds::has_small_method))]
fn has_small_method(method: &MethodShape) -> bool
    ensures { result ≡ has_small_method method.now }
{
    has_small_parts(&method.desc)
}

/// Whether the types of fields have at most 255 dimensions.
pub fn have_small_fields(fields: &[FieldShape]) -> bool
    ensures { result ≡ list_all has_small_field fields.now }
{
    fields.iter().all(|field| has_small_field(field))
}

/// Whether the types in the descriptors of methods have at most 255 dimensions.
pub fn have_small_methods(methods: &[MethodShape]) -> bool
    ensures { result ≡ list_all has_small_method methods.now }
{
    methods.iter().all(|method| has_small_method(method))
}

/// Whether a library may have this class under its name.
pub fn may_be_of_library(shape: &Shape) -> bool
    ensures { IsTrue result → IsLibraryShape shape.now.name shape.now }
{
    if shape.application {
        return false;
    }
    if shape.fields.len() > MOST_MEMBERS {
        return false;
    }
    if shape.methods.len() > MOST_MEMBERS {
        return false;
    }
    if have_small_fields(shape.fields.as_slice()) {
        return have_small_methods(shape.methods.as_slice());
    }
    false
}
