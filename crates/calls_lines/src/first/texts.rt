ghost use Rattle.std.specs.Prelude.{◌≡◌, ◌↔◌, IsTrue, IfOk};
ghost use Rattle.calls_facts.specs.First.Names.{object_init};
ghost use Rattle.calls_lines.specs.First.Lines.{member_text, HasMethodText, HasFieldText, HasSiteText, HasLabelText, HasPlaceText, HasTargetText};
ghost use Rattle.calls_lines.specs.First.Adding.{IsTextOf};

use crate::first::joining::{numbered, paired, worded};
use calls_form::object_class::ObjectClass;
use jv_types::{ClassId, FieldId, Label, MethodId, Name, Place};
use std::alloc::{AllocError, Global};

/// The text of a member of the class with this name and descriptor. Only memory can be wanting.
fn member_text(
    alloc: Global,
    class: &ObjectClass,
    name: &Name,
    desc: &Name,
) -> Result<Name, AllocError>
    ensures { IfOk result (λ text. text ≡ member_text class.now name.now desc.now) }
{
    let mut text = Vec::from_slice(alloc, class.name.as_slice())?;
    text.push(b' ')?;
    text.extend_from_slice(name.as_slice())?;
    text.push(b' ')?;
    text.extend_from_slice(desc.as_slice())?;
    Ok(Name::from_vec(text))
}

/// The text of a method, none where it isn't one of the class. Only memory can be wanting.
pub fn method_text(
    alloc: Global,
    class: &ObjectClass,
    id: MethodId,
) -> Result<Option<Name>, AllocError>
    ensures { IfOk result (IsTextOf (HasMethodText class.now id)) }
{
    if id.class.number != 0 {
        return Ok(None);
    }
    let Some(method) = class.methods.as_slice().get(usize::from(id.index)) else {
        return Ok(None);
    };
    Ok(Some(member_text(alloc, class, &method.name, &method.desc)?))
}

/// The text of a field, none where it isn't one of the class. Only memory can be wanting.
fn field_text(alloc: Global, class: &ObjectClass, id: FieldId) -> Result<Option<Name>, AllocError>
    ensures { IfOk result (IsTextOf (HasFieldText class.now id)) }
{
    if id.class.number != 0 {
        return Ok(None);
    }
    let Some(field) = class.fields.as_slice().get(usize::from(id.index)) else {
        return Ok(None);
    };
    Ok(Some(member_text(alloc, class, &field.name, &field.desc)?))
}

/// The text of the instruction of a method at an offset, none where the method isn't one of the class.
/// Only memory can be wanting.
pub fn site_text(
    alloc: Global,
    class: &ObjectClass,
    method: MethodId,
    pc: u16,
) -> Result<Option<Name>, AllocError>
    ensures { IfOk result (IsTextOf (HasSiteText class.now method pc)) }
{
    let method = method_text(alloc, class, method)?;
    numbered(alloc, b"", method, usize::from(pc))
}

/// Whether a method is the constructor of `java/lang/Object`.
fn is_object_init(id: MethodId) -> bool
    ensures { IsTrue result ↔ (id ≡ object_init) }
{
    id == MethodId {
        class: ClassId { number: 1 },
        index: 0,
    }
}

/// The text of what a call enters, none where it is neither a method of the class nor the constructor of
/// `java/lang/Object`. Only memory can be wanting.
pub fn target_text(
    alloc: Global,
    class: &ObjectClass,
    to: MethodId,
) -> Result<Option<Name>, AllocError>
    ensures { IfOk result (IsTextOf (HasTargetText class.now to)) }
{
    if is_object_init(to) {
        return Ok(Some(Name::from_slice(alloc, b"library")?));
    }
    method_text(alloc, class, to)
}

/// The text of a label, none where its objects weren't made by the class. Only memory can be wanting.
pub fn label_text(
    alloc: Global,
    class: &ObjectClass,
    label: Label,
) -> Result<Option<Name>, AllocError>
    ensures { IfOk result (IsTextOf (HasLabelText class.now label)) }
{
    let Label::Site { method, pc, depth } = label else {
        return Ok(None);
    };
    let site = site_text(alloc, class, method, pc)?;
    numbered(alloc, b"new ", site, usize::from(depth))
}

/// The text of a field of the objects of a label, none where the class has no such field or label. Only
/// memory can be wanting.
fn object_field_text(
    alloc: Global,
    class: &ObjectClass,
    label: Label,
    field: FieldId,
) -> Result<Option<Name>, AllocError>
    ensures { IfOk result (IsTextOf (HasPlaceText class.now (Place.Field label field))) }
{
    let label = label_text(alloc, class, label)?;
    let field = field_text(alloc, class, field)?;
    paired(alloc, b"field ", label, field)
}

/// The text of a place, none where it isn't one of the class, and where no line tells of it. Only memory
/// can be wanting.
pub fn place_text(
    alloc: Global,
    class: &ObjectClass,
    place: Place,
) -> Result<Option<Name>, AllocError>
    ensures { IfOk result (IsTextOf (HasPlaceText class.now place)) }
{
    match place {
        Place::Local { method, word, .. } => {
            let method = method_text(alloc, class, method)?;
            numbered(alloc, b"local ", method, usize::from(word))
        }
        Place::Stack { method, word, .. } => {
            let method = method_text(alloc, class, method)?;
            numbered(alloc, b"stack ", method, usize::from(word))
        }
        Place::Static(field) => worded(alloc, b"static ", field_text(alloc, class, field)?),
        Place::Field { label, field } => object_field_text(alloc, class, label, field),
        Place::Elem(_) | Place::Ret(_) | Place::Raise { .. } | Place::Thr(_) => Ok(None),
    }
}
