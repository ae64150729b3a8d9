ghost use Rattle.std.specs.Prelude.{◌≡◌, ◌∷◌, ◌++◌, [], ℕ, List, IsTrue, IfOk, IfSome, IfNone};
ghost use Rattle.jv_types.specs.NameForms.{is_class_name};
ghost use Rattle.jv_types.specs.declared.desc.PrimType.{PrimType};
ghost use Rattle.jv_types.specs.declared.desc.RefType.{RefType as RefTypes};
ghost use Rattle.jv_desc.specs.Texts.{prim_letter};
ghost use Rattle.jv_desc.specs.Steps.Reading.{no_semicolon, ReadsRef};

use crate::fault::BadDesc;
use crate::letters::prim_of;
use jv_types::{Name, Prim, RefType, is_class_name};
use sqlite_items::Boxed;
use std::alloc::Global;

/// The primitive type whose letter stands in front, and the bytes after it.
pub fn prim_at(bytes: &[u8]) -> Option<(Prim, &[u8])>
    ensures found { IfSome result (λ r. bytes.now ≡ prim_letter r.0 ∷ r.1.now) }
    ensures none { IfNone result ((prim : PrimType) (rest : List ℕ) → bytes.now ≡ prim_letter prim ∷ rest → ⊥) }
{
    match bytes.split_first() {
        None => None,
        Some((first, rest)) => match prim_of(*first) {
            Some(prim) => Some((prim, rest)),
            None => None,
        },
    }
}

/// The bytes before the first `;`, and those after it.
fn before_semicolon(bytes: &[u8]) -> Option<(&[u8], &[u8])>
    ensures found { IfSome result (λ r. IsTrue (no_semicolon r.0.now)) }
    ensures parts { IfSome result (λ r. bytes.now ≡ r.0.now ++ 59 ∷ r.1.now) }
    ensures none { IfNone result (IsTrue (no_semicolon bytes.now)) }
{
    for (i, byte) in bytes.iter().enumerate() {
        if *byte == b';' {
            return Some((&bytes[..i], &bytes[i + 1..]));
        }
    }
    None
}

/// The class name in front, which a `;` ends, and the bytes after that.
fn class_at(alloc: Global, bytes: &[u8]) -> Result<(Name, &[u8]), BadDesc>
    ensures named { IfOk result (λ r. IsTrue (is_class_name r.0)) }
    ensures parts { IfOk result (λ r. bytes.now ≡ r.0 ++ 59 ∷ r.1.now) }
    ensures bad { result ≡ Err BadDesc.Bad → (name rest : List ℕ) → IsTrue (is_class_name name) → bytes.now ≡ name ++ 59 ∷ rest → ⊥ }
{
    let Some((name, rest)) = before_semicolon(bytes) else {
        return Err(BadDesc::Bad);
    };
    if !is_class_name(name) {
        return Err(BadDesc::Bad);
    }
    Ok((Name::from_slice(alloc, name)?, rest))
}

/// The reference type of at most so many arrays whose text stands in front, and the bytes after it.
pub fn ref_at(alloc: Global, most: u16, bytes: &[u8]) -> Result<(RefType, &[u8]), BadDesc>
    ensures found { IfOk result (λ r. ReadsRef most bytes.now r.0 r.1.now) }
    ensures bad { result ≡ Err BadDesc.Bad → (type : RefTypes) (rest : List ℕ) → ReadsRef most bytes.now type rest → ⊥ }
{
    let Some((first, rest)) = bytes.split_first() else {
        return Err(BadDesc::Bad);
    };
    if *first == b'L' {
        return match class_at(alloc, rest) {
            Ok((name, after)) => Ok((RefType::Class(name), after)),
            Err(e) => Err(e),
        };
    }
    if *first != b'[' || most == 0 {
        return Err(BadDesc::Bad);
    }
    if let Some((prim, after)) = prim_at(rest) {
        return Ok((RefType::PrimArray(prim), after));
    }
    match ref_at(alloc, most - 1, rest) {
        Ok((item, after)) => Ok((RefType::Array(Boxed::new(alloc, item)?), after)),
        Err(e) => Err(e),
    }
}
