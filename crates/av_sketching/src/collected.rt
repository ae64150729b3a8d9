ghost use Rattle.std.specs.Prelude.{◌≡◌, ℕ, IfOk, map};
ghost use Rattle.av_standin_of.specs.Classes.{is_interface, kept_field, kept_flags, IsOfCollected};
ghost use Rattle.av_sketches.specs.Sketches.{made_class};
ghost use Rattle.av_sketches.specs.Conditions.{HasDistinctMembers};
ghost use Rattle.av_sketching.specs.Steps.{all_sketched, extra_sketch, kept_sketch};

use av_sketches::{Recipe, Sketch, SketchedMethod};
use av_sorted::{fields_in_order, methods_in_order};
use av_templates::{extra_desc, is_abstract};
use jv_types::{Access, Copied, FieldShape, MethodShape, Name, Shape};
use std::alloc::AllocError;

/// Whether it is an interface (JVMS table 4.1-A).
fn is_interface(class: &Shape) -> bool
    ensures { result ≡ is_interface class.now }
{
    class.flags.0 & 0x0200 == 0x0200
}

/// The flags that the stand-in of a class keeps: public, final, interface and abstract, and a class has SUPER.
pub(crate) fn kept_flags(class: &Shape) -> Access
    ensures { result ≡ kept_flags class.now }
{
    if is_interface(class) {
        return Access(class.flags.0 & 0x0611);
    }
    Access((class.flags.0 & 0x0611) | 0x0020)
}

/// A field with the flags that are kept: public, private, protected and static. Only memory can be wanting.
fn kept_field(field: &FieldShape) -> Result<FieldShape, AllocError>
    ensures { IfOk result (λ made. made ≡ kept_field field.now) }
{
    let mut kept = field.copy()?;
    kept.flags = Access(field.flags.0 & 0x000F);
    Ok(kept)
}

/// The fields of a class, with the flags that are kept. Only memory can be wanting.
pub(crate) fn kept_fields(class: &Shape) -> Result<Vec<FieldShape>, AllocError>
    ensures { IfOk result (λ made. made.items ≡ map kept_field class.now.fields) }
{
    let mut kept = Vec::new(class.name.allocator());
    for field in class.fields.as_slice() {
        kept.push(kept_field(field)?)?;
    }
    Ok(kept)
}

/// The superclass, if there is one. Only memory can be wanting.
pub(crate) fn parent_of(class: &Shape) -> Result<Option<Name>, AllocError>
    ensures { IfOk result (λ made. made ≡ class.now.parent) }
{
    match &class.parent {
        None => Ok(None),
        Some(name) => Ok(Some(name.copy()?)),
    }
}

/// The recipe of a method that a class declares: none where it is abstract. Only memory can be wanting.
fn recipe_of(class: &Shape, declared: &MethodShape) -> Result<Option<Recipe>, AllocError>
    ensures { IfOk result (λ made. made ≡ (kept_sketch class.now declared.now).recipe) }
{
    if is_abstract(declared) {
        return Ok(None);
    }
    Ok(Some(Recipe::Collected(parent_of(class)?, declared.copy()?)))
}

/// The sketch of a method that a class declares. Only memory can be wanting.
fn kept_method(class: &Shape, declared: &MethodShape) -> Result<SketchedMethod, AllocError>
    ensures { IfOk result (λ made. made ≡ kept_sketch class.now declared.now) }
{
    let recipe = recipe_of(class, declared)?;
    let shape = MethodShape {
        name: declared.name.copy()?,
        desc: declared.desc.copy()?,
        flags: Access(declared.flags.0 & 0x041F),
        code: !is_abstract(declared),
    };
    Ok(SketchedMethod { shape, recipe })
}

/// The sketch of the extra constructor of a class. Only memory can be wanting.
fn extra_method(class: &Shape) -> Result<SketchedMethod, AllocError>
    ensures { IfOk result (λ made. made ≡ extra_sketch class.now) }
{
    let alloc = class.name.allocator();
    let shape = MethodShape {
        name: Name::from_slice(alloc, b"<init>".as_slice())?,
        desc: extra_desc(alloc)?,
        flags: Access(0x0001),
        code: true,
    };
    Ok(SketchedMethod {
        shape,
        recipe: Some(Recipe::Extra(parent_of(class)?)),
    })
}

/// The sketches of the methods that a class declares. Only memory can be wanting.
fn kept_methods(class: &Shape) -> Result<Vec<SketchedMethod>, AllocError>
    ensures { IfOk result (λ made. made.items ≡ map (kept_sketch class.now) class.now.methods) }
{
    let mut kept = Vec::new(class.name.allocator());
    for declared in class.methods.as_slice() {
        kept.push(kept_method(class, declared)?)?;
    }
    Ok(kept)
}

/// The sketches of the methods of a collected class: those that it declares, and the extra constructor. Only memory can be
/// wanting.
pub(crate) fn all_sketched(class: &Shape) -> Result<Vec<SketchedMethod>, AllocError>
    ensures { IfOk result (λ made. made.items ≡ all_sketched class.now) }
{
    let mut all = kept_methods(class)?;
    if !is_interface(class) {
        all.push(extra_method(class)?)?;
    }
    Ok(all)
}

/// The sketch of the stand-in of a collected class, with its members in order. Only memory can be wanting.
pub fn collected_sketch(class: &Shape) -> Result<Sketch, AllocError>
    requires { HasDistinctMembers class.now }
    ensures { IfOk result (λ made. (dims : ℕ) → IsOfCollected class.now (made_class dims made)) }
{
    let fields = fields_in_order(kept_fields(class)?)?;
    let methods = methods_in_order(all_sketched(class)?)?;
    Ok(Sketch {
        name: class.name.copy()?,
        flags: kept_flags(class),
        parent: parent_of(class)?,
        interfaces: class.interfaces.copy()?,
        fields,
        methods,
    })
}
