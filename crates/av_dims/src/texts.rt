ghost use Rattle.std.specs.Prelude.{IfOk, IfSome, IfNone};
ghost use Rattle.jv_types.specs.declared.desc.RefType.{RefType as RefTypeValue};
ghost use Rattle.jv_types.specs.declared.desc.Desc.TheVariants as descs;
ghost use Rattle.jv_desc.specs.Texts.{IsFieldText};
ghost use Rattle.jv_names.specs.Naming.{IsTypeText};
ghost use Rattle.av_dims.specs.Greatest.{AreSmall, IsGreatest, OfSome, TextDims};

use crate::types::{greater, type_dims};
use jv_desc::{BadDesc, field_desc};
use jv_types::{Desc, Name, RefType, is_class_name};
use std::alloc::{AllocError, Global};

/// The reference type of a field descriptor, if the text is one of a reference type.
fn reference_of(alloc: Global, text: &[u8]) -> Result<Option<RefType>, AllocError>
    ensures found { IfOk result (λ o. IfSome o (λ of. IsFieldText text.now (descs.Ref of))) }
    ensures none { IfOk result (λ o. IfNone o ((of : RefTypeValue) → ¬ IsFieldText text.now (descs.Ref of))) }
{
    match field_desc(alloc, text) {
        Ok(Desc::Ref(of)) => Ok(Some(of)),
        Ok(Desc::Prim(_)) => Ok(None),
        Err(BadDesc::Bad) => Ok(None),
        Err(BadDesc::Memory) => Err(AllocError),
    }
}

/// The class or array type that a text names (JVMS 4.4.1), if it names one.
fn type_of(alloc: Global, text: &[u8]) -> Result<Option<RefType>, AllocError>
    ensures found { IfOk result (λ o. IfSome o (IsTypeText text.now)) }
    ensures none { IfOk result (λ o. IfNone o ((of : RefTypeValue) → ¬ IsTypeText text.now of)) }
{
    if is_class_name(text) {
        return Ok(Some(RefType::Class(Name::from_slice(alloc, text)?)));
    }
    match reference_of(alloc, text)? {
        None => Ok(None),
        Some(RefType::Class(_)) => Ok(None),
        Some(of) => Ok(Some(of)),
    }
}

/// The number of dimensions of the type that a text names, and at least 1. Only memory can be wanting.
fn greatest_in_text(alloc: Global, text: &Name) -> Result<u8, AllocError>
    requires { AreSmall (TextDims text.now) }
    ensures { IfOk result (IsGreatest (TextDims text.now)) }
{
    match type_of(alloc, text.as_slice())? {
        None => Ok(1),
        Some(of) => Ok(greater(1, type_dims(&of))),
    }
}

/// The greatest number of dimensions of the types that these texts name, and at least 1. Only memory can be wanting.
pub fn greatest_in_texts(alloc: Global, texts: &[Name]) -> Result<u8, AllocError>
    requires { AreSmall (OfSome TextDims texts.now) }
    ensures { IfOk result (IsGreatest (OfSome TextDims texts.now)) }
{
    let mut dims = 1;
    for text in texts {
        let more = greatest_in_text(alloc, text)?;
        dims = greater(dims, more);
    }
    Ok(dims)
}
