ghost use Rattle.std.specs.Prelude.{◌≡◌, ◌⊎◌, ◌↔◌, IsTrue, IfOk};
ghost use Rattle.jv_class.specs.ClassTexts.{KeepsRules};
ghost use Rattle.jv_class.specs.Steps.Kinds.{AreKept};
ghost use Rattle.jv_class.specs.Steps.RuleParts.{NamesRight, HasDistinct};
ghost use Rattle.jv_names.specs.PoolNames.{HasClassName};

use crate::class_file::ClassFile;
use crate::distinct::are_distinct;
use crate::kinds::TextKinds;
use crate::member_rules::{are_classes, are_fields, are_methods};
use crate::text_numbers::number_texts;
use crate::texts::{are_named, keep_texts, names_class};
use std::alloc::{AllocError, Global};

/// Whether the index of a superclass is 0 or names a class.
fn is_super(class: &ClassFile, kept: &[Option<TextKinds>]) -> bool
    requires { AreKept class.now.pool kept.now }
    ensures { IsTrue result ↔ ((class.now.super_class ≡ 0) ⊎ HasClassName class.now.pool class.now.super_class) }
{
    class.super_class == 0 || names_class(&class.pool, kept, class.super_class)
}

/// Whether each name and each descriptor of the class is right.
fn names_right(class: &ClassFile, kept: &[Option<TextKinds>]) -> bool
    requires { AreKept class.now.pool kept.now }
    ensures { IsTrue result ↔ NamesRight class.now }
{
    are_named(&class.pool, kept)
        && names_class(&class.pool, kept, class.this_class)
        && is_super(class, kept)
        && are_classes(&class.pool, kept, class.interfaces.as_slice())
        && are_fields(&class.pool, kept, class.fields.as_slice())
        && are_methods(&class.pool, kept, class.methods.as_slice())
}

/// Whether no two fields, and no two methods, share name and descriptor.
fn has_distinct(alloc: Global, class: &ClassFile) -> Result<bool, AllocError>
    requires { NamesRight class.now }
    ensures { IfOk result (λ distinct. IsTrue distinct ↔ HasDistinct class.now) }
{
    let numbers = number_texts(alloc, &class.pool)?;
    let fields = are_distinct(alloc, &class.pool, &numbers, class.fields.as_slice())?;
    let methods = are_distinct(alloc, &class.pool, &numbers, class.methods.as_slice())?;
    Ok(fields && methods)
}

/// Whether the class keeps the rules on names, descriptors and codes.
pub fn keeps_rules(alloc: Global, class: &ClassFile) -> Result<bool, AllocError>
    ensures { IfOk result (λ keeps. IsTrue keeps ↔ KeepsRules class.now) }
{
    let kept = keep_texts(alloc, &class.pool)?;
    if !names_right(class, &kept) {
        return Ok(false);
    }
    has_distinct(alloc, class)
}
