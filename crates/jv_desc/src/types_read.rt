ghost use Rattle.std.specs.Prelude.{◌≡◌, ◌∷◌, ◌++◌, ℕ, List, Option, IfOk};
ghost use Rattle.jv_types.specs.declared.desc.Desc.{Desc as Descs};
ghost use Rattle.jv_types.specs.declared.desc.MethodDesc.{MethodDesc as MethodDescs};
ghost use Rattle.jv_desc.specs.Texts.{IsResult, result_text, IsFieldText, IsMethodText};
ghost use Rattle.jv_desc.specs.Steps.Reading.{ReadsDesc, ReadsParams};

use crate::fault::BadDesc;
use crate::reading::{prim_at, ref_at};
use jv_types::{Desc, MethodDesc, Seq};
use std::alloc::Global;

/// The type whose text stands in front, and the bytes after it.
fn desc_at(alloc: Global, bytes: &[u8]) -> Result<(Desc, &[u8]), BadDesc>
    ensures found { IfOk result (λ r. ReadsDesc bytes.now r.0 r.1.now) }
    ensures bad { result ≡ Err BadDesc.Bad → (d : Descs) (rest : List ℕ) → ReadsDesc bytes.now d rest → ⊥ }
{
    if let Some((prim, rest)) = prim_at(bytes) {
        return Ok((Desc::Prim(prim), rest));
    }
    match ref_at(alloc, 255, bytes) {
        Ok((of, rest)) => Ok((Desc::Ref(of), rest)),
        Err(e) => Err(e),
    }
}

/// The type that the bytes are the field descriptor of (JVMS 4.3.2). The error is `Bad` exactly where
/// they are none.
pub fn field_desc(alloc: Global, bytes: &[u8]) -> Result<Desc, BadDesc>
    ensures found { IfOk result (λ d. IsFieldText bytes.now d) }
    ensures bad { result ≡ Err BadDesc.Bad → (d : Descs) → IsFieldText bytes.now d → ⊥ }
{
    match desc_at(alloc, bytes) {
        Ok((desc, rest)) => {
            if rest.is_empty() {
                Ok(desc)
            } else {
                Err(BadDesc::Bad)
            }
        }
        Err(e) => Err(e),
    }
}

/// The types up to a `)` that is no part of a class name, and the bytes after that.
fn params_at(alloc: Global, bytes: &[u8]) -> Result<(Vec<Desc>, &[u8]), BadDesc>
    ensures found { IfOk result (λ r. ReadsParams bytes.now r.0.items r.1.now) }
    ensures bad { result ≡ Err BadDesc.Bad → (ds : List Descs) (rest : List ℕ) → ReadsParams bytes.now ds rest → ⊥ }
{
    let mut params = Vec::new(alloc);
    let mut left = bytes;
    loop {
        let Some((first, rest)) = left.split_first() else {
            return Err(BadDesc::Bad);
        };
        if *first == b')' {
            return Ok((params, rest));
        }
        match desc_at(alloc, left) {
            Ok((desc, after)) => {
                params.push(desc)?;
                left = after;
            }
            Err(e) => return Err(e),
        }
    }
}

/// The result that the bytes are the text of: none for `V`, and else a type.
fn result_of(alloc: Global, bytes: &[u8]) -> Result<Option<Desc>, BadDesc>
    ensures found { IfOk result (λ r. IsResult r × (bytes.now ≡ result_text r)) }
    ensures bad { result ≡ Err BadDesc.Bad → (r : Option Descs) → IsResult r → bytes.now ≡ result_text r → ⊥ }
{
    if bytes == b"V".as_slice() {
        return Ok(None);
    }
    match field_desc(alloc, bytes) {
        Ok(desc) => Ok(Some(desc)),
        Err(e) => Err(e),
    }
}

/// The parameters and the result that the bytes are the method descriptor of (JVMS 4.3.3). The error is
/// `Bad` exactly where they are none.
pub fn method_desc(alloc: Global, bytes: &[u8]) -> Result<MethodDesc, BadDesc>
    ensures found { IfOk result (λ d. IsMethodText bytes.now d) }
    ensures bad { result ≡ Err BadDesc.Bad → (d : MethodDescs) → IsMethodText bytes.now d → ⊥ }
{
    let Some((first, rest)) = bytes.split_first() else {
        return Err(BadDesc::Bad);
    };
    if *first != b'(' {
        return Err(BadDesc::Bad);
    }
    let (params, after) = match params_at(alloc, rest) {
        Ok(read) => read,
        Err(e) => return Err(e),
    };
    match result_of(alloc, after) {
        Ok(result) => Ok(MethodDesc {
            params: Seq::from_vec(params),
            result,
        }),
        Err(e) => Err(e),
    }
}
