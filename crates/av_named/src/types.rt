ghost use Rattle.std.specs.Prelude.{◌≡◌, Some, OnOk};
ghost use Rattle.std.specs.Option.{option_copied};
ghost use Rattle.jv_two_worlds.specs.Types.{EndsIn};
ghost use Rattle.av_collected.specs.Types.{HasClass};
ghost use Rattle.av_named.specs.Appending.{Appends};
ghost use Rattle.av_named.specs.Inner.{inner_name};

use jv_types::{Copied, Desc, Name, RefType};
use std::alloc::AllocError;

/// The name of the class or interface inside a type, below all its dimensions, if there is one.
fn inner_name(of: &RefType) -> Option<&Name>
    ensures { option_copied result ≡ inner_name of.now }
{
    match of {
        RefType::Class(name) => Some(name),
        RefType::PrimArray(_) => None,
        RefType::Array(item) => inner_name(item.get()),
    }
}

/// Adds a copy of a name.
pub fn push_copy(name: &Name, out: &mut Vec<Name>) -> Result<(), AllocError>
    ensures { OnOk result (Appends (λ each. name.now ≡ each) out.old.items out.new.items) }
{
    out.push(name.copy()?)?;
    Ok(())
}

/// Adds a copy of a name, if there is one.
pub fn push_some(name: Option<&Name>, out: &mut Vec<Name>) -> Result<(), AllocError>
    ensures { OnOk result (Appends (λ each. option_copied name.entry ≡ Some each) out.old.items out.new.items) }
{
    match name {
        None => Ok(()),
        Some(name) => push_copy(name, out),
    }
}

/// Adds the name of the class or interface inside a type, if there is one.
pub fn names_of_type(of: &RefType, out: &mut Vec<Name>) -> Result<(), AllocError>
    ensures { OnOk result (Appends (EndsIn of.now) out.old.items out.new.items) }
{
    push_some(inner_name(of), out)
}

/// Adds the name of the class or interface inside a type, if there is one.
pub fn names_of_desc(desc: &Desc, out: &mut Vec<Name>) -> Result<(), AllocError>
    ensures { OnOk result (Appends (HasClass desc.now) out.old.items out.new.items) }
{
    match desc {
        Desc::Prim(_) => Ok(()),
        Desc::Ref(of) => names_of_type(of, out),
    }
}
