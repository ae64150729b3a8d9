ghost use Rattle.std.specs.Prelude.{◌≡◌, ◌≤◌, ◌⊎◌, min};
ghost use Rattle.jv_desc.specs.Texts.{ref_dims};
ghost use Rattle.av_collected.specs.Types.{MentionsDims, dims_of};
ghost use Rattle.av_dims.specs.Greatest.{AreSmall, DescDims, IsGreatest, OfSome};

use jv_types::{Desc, MethodDesc, RefType};

/// The greater of two numbers.
pub fn greater(a: u8, b: u8) -> u8
    ensures left { a ≤ result }
    ensures right { b ≤ result }
    ensures one { (result ≡ a) ⊎ (result ≡ b) }
{
    if a < b { b } else { a }
}

/// How many dimensions a class or array type has, and 255 where there are more.
fn capped_dims(of: &RefType) -> u8
    ensures { result ≡ min (ref_dims of.now) 255 }
{
    match of {
        RefType::Class(_) => 0,
        RefType::PrimArray(_) => 1,
        RefType::Array(item) => capped_dims(item.get()).saturating_add(1),
    }
}

/// How many dimensions a class or array type has, of which there are at most 255.
pub fn type_dims(of: &RefType) -> u8
    requires { ref_dims of.now ≤ 255 }
    ensures { result ≡ ref_dims of.now }
{
    capped_dims(of)
}

/// How many dimensions a type has.
pub fn desc_dims(desc: &Desc) -> u8
    requires { dims_of desc.now ≤ 255 }
    ensures { result ≡ dims_of desc.now }
{
    match desc {
        Desc::Prim(_) => 0,
        Desc::Ref(of) => type_dims(of),
    }
}

/// The greatest number of dimensions of these types, and at least 1.
fn greatest_in_descs(descs: &[Desc]) -> u8
    requires { AreSmall (OfSome DescDims descs.now) }
    ensures { IsGreatest (OfSome DescDims descs.now) result }
{
    let mut dims = 1;
    for desc in descs {
        dims = greater(dims, desc_dims(desc));
    }
    dims
}

/// The greatest number of dimensions of a parameter or the result, and at least 1.
pub fn greatest_in_method(desc: &MethodDesc) -> u8
    requires { AreSmall (MentionsDims desc.now) }
    ensures { IsGreatest (MentionsDims desc.now) result }
{
    let params = greatest_in_descs(desc.params.as_slice());
    match &desc.result {
        None => params,
        Some(of) => greater(params, desc_dims(of)),
    }
}
