ghost use Rattle.std.specs.Prelude.{IfOk, IfSome, IfNone, OnOk};
ghost use Rattle.jv_types.specs.declared.desc.RefType.{RefType as RefTypeValue};
ghost use Rattle.jv_types.specs.declared.desc.Desc.TheVariants as descs;
ghost use Rattle.jv_desc.specs.Texts.{IsFieldText};
ghost use Rattle.jv_names.specs.Naming.{IsTypeText};
ghost use Rattle.av_named.specs.Appending.{Appends, OfEach};
ghost use Rattle.av_named.specs.Named.{TextNames};

use crate::types::names_of_type;
use jv_desc::{BadDesc, field_desc};
use jv_types::{Desc, Name, RefType, is_class_name};
use std::alloc::{AllocError, Global};

/// The reference type of a field descriptor, if the text is one of a reference type.
fn reference_of(alloc: Global, text: &[u8]) -> Result<Option<RefType>, AllocError>
    ensures found { IfOk result (λ o. IfSome o (λ of. IsFieldText text.now (descs.Ref of))) }
    ensures none { IfOk result (λ o. IfNone o ((of : RefTypeValue) → ¬ IsFieldText text.now (descs.Ref of))) }
{
    match field_desc(alloc, text) {
        Ok(Desc::Ref(of)) => Ok(Some(of)),
        Ok(Desc::Prim(_)) => Ok(None),
        Err(BadDesc::Bad) => Ok(None),
        Err(BadDesc::Memory) => Err(AllocError),
    }
}

/// The class or array type that a text names (JVMS 4.4.1), if it names one.
fn type_of(alloc: Global, text: &[u8]) -> Result<Option<RefType>, AllocError>
    ensures found { IfOk result (λ o. IfSome o (IsTypeText text.now)) }
    ensures none { IfOk result (λ o. IfNone o ((of : RefTypeValue) → ¬ IsTypeText text.now of)) }
{
    if is_class_name(text) {
        return Ok(Some(RefType::Class(Name::from_slice(alloc, text)?)));
    }
    match reference_of(alloc, text)? {
        None => Ok(None),
        Some(RefType::Class(_)) => Ok(None),
        Some(of) => Ok(Some(of)),
    }
}

/// Adds the name of the class inside the type that a text names, if there is one.
fn names_of_text(alloc: Global, text: &Name, out: &mut Vec<Name>) -> Result<(), AllocError>
    ensures { OnOk result (Appends (TextNames text.now) out.old.items out.new.items) }
{
    match type_of(alloc, text.as_slice())? {
        None => Ok(()),
        Some(of) => names_of_type(&of, out),
    }
}

/// Adds the names of the classes inside the types that these texts name.
pub fn names_of_texts(alloc: Global, texts: &[Name], out: &mut Vec<Name>) -> Result<(), AllocError>
    ensures { OnOk result (Appends (OfEach TextNames texts.now) out.old.items out.new.items) }
{
    for text in texts {
        names_of_text(alloc, text, out)?;
    }
    Ok(())
}
