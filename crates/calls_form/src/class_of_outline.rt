ghost use Rattle.std.specs.Prelude.{◌≡◌, ℕ, ◌<◌, ◌^◌, List, length, map, IfOk, OnOk, Err};
ghost use Rattle.calls_form.specs.declared.outline.Outline.{Outline};
ghost use Rattle.calls_form.specs.declared.object_class.ObjectClass.{ObjectClass};
ghost use Rattle.calls_form.specs.ClassesBodies.{target_in};
ghost use Rattle.calls_form.specs.ClassesHeads.{headings_of};
ghost use Rattle.calls_form.specs.ClassesPlaces.{AreApart};
ghost use Rattle.calls_form.specs.ClassesClass.{is_class_named, is_framed, field_texts, heading_texts, Agrees, IsReadAs, HasWalks};
ghost use Rattle.calls_form.specs.ObjectForm.{IsClassOf};

use crate::class_of_fields::read_fields;
use crate::class_of_flags::is_visible;
use crate::class_of_heads::{Head, read_heads};
use crate::class_of_labels::{labels_of_fields, labels_of_heads};
use crate::class_of_methods::read_methods;
use crate::class_of_places::read_places;
use crate::class_of_pool::class_at;
use crate::class_of_targets::{Members, read_targets};
use crate::object_class::{Field, ObjectClass};
use crate::outline::{Entry, Outline};
use crate::read_error::ReadError;
use crate::target::Target;
use crate::walk::walk_depths;
use jv_types::{Name, Seq};
use std::alloc::Global;

/// Whether an index of the pool has the class of this name (JVMS 4.4.1).
fn is_class_named(pool: &[Entry], index: u16, name: &[u8]) -> bool
    ensures { result ≡ is_class_named pool.now index name.now }
{
    match class_at(pool, index) {
        None => false,
        Some(class) => class.as_slice() == name,
    }
}

/// Whether a file has a version from 50 to 52, is the class of this name, has `java/lang/Object` as its
/// superclass, and has no more members than two bytes count.
fn is_framed(name: &[u8], outline: &Outline) -> bool
    ensures { result ≡ is_framed name.now outline.now }
{
    let pool = outline.pool.as_slice();
    ((outline.major >= 50 && outline.major <= 52)
        && (outline.fields.len() < 65536 && outline.methods.len() < 65536))
        && (is_visible(name)
            && (is_class_named(pool, outline.this_class, name)
                && is_class_named(pool, outline.super_class, b"java/lang/Object".as_slice())))
}

/// What each index of the pool names. No two fields, and no two methods, may share name and descriptor.
fn read_all_targets(
    alloc: Global,
    pool: &[Entry],
    own: &[u8],
    fields: &[Field],
    heads: &[Head],
) -> Result<Vec<Option<Target>>, ReadError>
    requires few_fields { length fields.now < 2 ^ 16 }
    requires few_methods { length heads.now < 2 ^ 16 }
    ensures table { IfOk result (λ t. Agrees pool.now own.now (map field_texts fields.now) (map heading_texts (headings_of heads.now)) (target_in t.items)) }
    ensures fields_apart { IfOk result (λ _. AreApart (map field_texts fields.now)) }
    ensures methods_apart { IfOk result (λ _. AreApart (map heading_texts (headings_of heads.now))) }
    ensures malformed { result ≡ Err ReadError.Malformed → AreApart (map field_texts fields.now) → AreApart (map heading_texts (headings_of heads.now)) → ⊥ }
{
    let field_labels = labels_of_fields(alloc, fields)?;
    let method_labels = labels_of_heads(alloc, heads)?;
    let field_places = read_places(alloc, &field_labels)?;
    let method_places = read_places(alloc, &method_labels)?;
    let fields = Members {
        labels: &field_labels,
        places: &field_places,
    };
    let methods = Members {
        labels: &method_labels,
        places: &method_places,
    };
    Ok(read_targets(alloc, pool, own, fields, methods)?)
}

/// The class of this name with the members of an outline that is framed.
fn read_members(alloc: Global, name: &[u8], outline: &Outline) -> Result<ObjectClass, ReadError>
    requires few_fields { length outline.now.fields < 2 ^ 16 }
    requires few_methods { length outline.now.methods < 2 ^ 16 }
    ensures found { IfOk result (λ c. IsReadAs name.now outline.now c) }
    ensures malformed { result ≡ Err ReadError.Malformed → (c : ObjectClass) → IsClassOf name.now outline.now c → ⊥ }
{
    let pool = outline.pool.as_slice();
    let fields = read_fields(alloc, pool, name, outline.fields.as_slice())?;
    let heads = read_heads(alloc, pool, outline.methods.as_slice())?;
    let targets = read_all_targets(alloc, pool, name, &fields, &heads)?;
    let methods = read_methods(alloc, name, &targets, &heads)?;
    Ok(ObjectClass {
        name: Name::from_slice(alloc, name)?,
        fields: Seq::from_vec(fields),
        methods: Seq::from_vec(methods),
    })
}

/// Asks that each method of a class has its walk of kinds.
fn check_walks(alloc: Global, class: &ObjectClass) -> Result<(), ReadError>
    ensures found { OnOk result (HasWalks class.now) }
    ensures malformed { result ≡ Err ReadError.Malformed → HasWalks class.now → ⊥ }
{
    for method in class.methods.as_slice() {
        let _depths = walk_depths(alloc, class, method)?;
    }
    Ok(())
}

/// The class of this name that an outline is. What isn't the outline of such a class is refused.
pub fn class_of(alloc: Global, name: &[u8], outline: &Outline) -> Result<ObjectClass, ReadError>
    ensures found { IfOk result (λ c. IsClassOf name.now outline.now c) }
    ensures malformed { result ≡ Err ReadError.Malformed → (c : ObjectClass) → IsClassOf name.now outline.now c → ⊥ }
{
    if !is_framed(name, outline) {
        return Err(ReadError::Malformed);
    }
    let class = read_members(alloc, name, outline)?;
    check_walks(alloc, &class)?;
    Ok(class)
}

/// An outline is no two classes.
pub fn one_class_of()
    ensures { (name : List ℕ) (o : Outline) (c d : ObjectClass) → IsClassOf name o c → IsClassOf name o d → c ≡ d }
{}
