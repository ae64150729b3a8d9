ghost use Rattle.std.specs.Prelude.{◌≡◌, ◌↔◌, IsTrue};
ghost use Rattle.jv_types.specs.declared.desc.RefType.{Array, Class};
ghost use Rattle.jv_types.specs.declared.desc.Desc.TheVariants.{Ref};
ghost use Rattle.av_conditions.specs.Conditions.{main_desc};
ghost use Rattle.av_conditions.specs.CoreClasses.{string_name};

use jv_types::{Desc, MethodDesc, RefType};

/// Whether a reference type is String.
fn is_string(of: &RefType) -> bool
    ensures { IsTrue result ↔ (of.now ≡ Class string_name) }
{
    match of {
        RefType::Class(name) => name.as_slice() == b"java/lang/String".as_slice(),
        _ => false,
    }
}

/// Whether a type is that of arrays of String.
fn is_strings(of: &Desc) -> bool
    ensures { IsTrue result ↔ (of.now ≡ Ref (Array (Class string_name))) }
{
    match of {
        Desc::Ref(RefType::Array(item)) => is_string(item.get()),
        _ => false,
    }
}

/// Whether a method takes one array of String and gives nothing, as a main does (JLS 12.1.4).
pub fn is_main_desc(desc: &MethodDesc) -> bool
    ensures { IsTrue result ↔ (desc.now ≡ main_desc) }
{
    match desc.params.as_slice() {
        [of] => is_strings(of) && desc.result.is_none(),
        _ => false,
    }
}
