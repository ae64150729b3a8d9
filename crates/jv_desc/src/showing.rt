ghost use Rattle.std.specs.Prelude.{◌≡◌, ◌∷◌, [], ◌++◌, ℕ, List, IfOk, OnOk};
ghost use Rattle.std.specs.List.{flat_map};
ghost use Rattle.jv_desc.specs.Texts.{ref_text, desc_text, result_text, method_text};

use crate::letters::letter_of;
use jv_types::{Desc, MethodDesc, RefType};
use std::alloc::{AllocError, Global};

/// Adds the text of a class at the end.
fn put_class(text: &mut Vec<u8>, name: &[u8]) -> Result<(), AllocError>
    ensures { OnOk result (text.new.items ≡ text.old.items ++ (76 ∷ name.now ++ 59 ∷ [])) }
{
    text.push(b'L')?;
    text.extend_from_slice(name)?;
    text.push(b';')?;
    Ok(())
}

/// Adds the text of a reference type at the end.
fn put_ref(text: &mut Vec<u8>, of: &RefType) -> Result<(), AllocError>
    ensures { OnOk result (text.new.items ≡ text.old.items ++ ref_text of.now) }
{
    match of {
        RefType::Class(name) => put_class(text, name.as_slice()),
        RefType::PrimArray(prim) => {
            text.push(b'[')?;
            text.push(letter_of(*prim))?;
            Ok(())
        }
        RefType::Array(item) => {
            text.push(b'[')?;
            put_ref(text, item.get())
        }
    }
}

/// Adds the text of a type at the end.
fn put_desc(text: &mut Vec<u8>, desc: &Desc) -> Result<(), AllocError>
    ensures { OnOk result (text.new.items ≡ text.old.items ++ desc_text desc.now) }
{
    match desc {
        Desc::Prim(prim) => {
            text.push(letter_of(*prim))?;
            Ok(())
        }
        Desc::Ref(of) => put_ref(text, of),
    }
}

/// The spelling of a type, which is its one descriptor where it has one. Only memory can be wanting.
pub fn show_field(alloc: Global, d: &Desc) -> Result<Vec<u8>, AllocError>
    ensures { IfOk result (λ text. text.items ≡ desc_text d.now) }
{
    let mut text = Vec::new(alloc);
    put_desc(&mut text, d)?;
    Ok(text)
}

/// Adds the texts of types at the end, one after the other.
fn put_descs(text: &mut Vec<u8>, descs: &[Desc]) -> Result<(), AllocError>
    ensures { OnOk result (text.new.items ≡ text.old.items ++ flat_map desc_text descs.now) }
{
    for desc in descs {
        put_desc(text, desc)?;
    }
    Ok(())
}

/// Adds the text of a result at the end.
fn put_result(text: &mut Vec<u8>, found: &Option<Desc>) -> Result<(), AllocError>
    ensures { OnOk result (text.new.items ≡ text.old.items ++ result_text found.now) }
{
    match found {
        None => {
            text.push(b'V')?;
            Ok(())
        }
        Some(desc) => put_desc(text, desc),
    }
}

/// The spelling of a method's parameters and result, which is its one descriptor where it has one.
/// Only memory can be wanting.
pub fn show_method(alloc: Global, d: &MethodDesc) -> Result<Vec<u8>, AllocError>
    ensures { IfOk result (λ text. text.items ≡ method_text d.now) }
{
    let mut text = Vec::new(alloc);
    text.push(b'(')?;
    put_descs(&mut text, d.params.as_slice())?;
    text.push(b')')?;
    put_result(&mut text, &d.result)?;
    Ok(text)
}
