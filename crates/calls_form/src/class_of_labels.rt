ghost use Rattle.std.specs.Prelude.{◌≡◌, map, IfOk};
ghost use Rattle.calls_form.specs.ClassesClass.{field_texts, heading_texts};
ghost use Rattle.calls_form.specs.ClassesHeads.{headings_of};
ghost use Rattle.calls_form.specs.ClassesPlaces.{all_texts};

use crate::class_of_heads::Head;
use crate::class_of_places::Label;
use crate::object_class::Field;
use std::alloc::{AllocError, Global};

/// The names and descriptors of fields.
pub fn labels_of_fields<'a>(
    alloc: Global,
    fields: &'a [Field],
) -> Result<Vec<Label<'a>>, AllocError>
    ensures { IfOk result (λ v. all_texts v.items ≡ map field_texts fields.now) }
{
    let mut labels = Vec::with_capacity(alloc, fields.len())?;
    for field in fields {
        labels.push(Label {
            name: &field.name,
            desc: &field.desc,
        })?;
    }
    Ok(labels)
}

/// The names and descriptors of methods.
pub fn labels_of_heads<'a>(alloc: Global, heads: &[Head<'a>]) -> Result<Vec<Label<'a>>, AllocError>
    ensures { IfOk result (λ v. all_texts v.items ≡ map heading_texts (headings_of heads.now)) }
{
    let mut labels = Vec::with_capacity(alloc, heads.len())?;
    for head in heads {
        labels.push(Label {
            name: head.name,
            desc: head.desc,
        })?;
    }
    Ok(labels)
}
