ghost use Rattle.std.specs.Prelude.{◌≡◌, ◌∷◌, ◌++◌, [], IfOk};
ghost use Rattle.jv_types.specs.declared.frames.VType as types;
ghost use Rattle.jv_frames.specs.Types.{ref_vtype};
ghost use Rattle.av_standin_of.specs.Items.{elements_item, objects_type};
ghost use Rattle.av_templates.specs.Putting.{with_rows};
ghost use Rattle.av_items.specs.Steps.{element_got, element_kept, element_put, element_stored, first_place};

use crate::rows::{bare, ends, keeps, known_as, over_one};
use av_asm::CodeBuilder;
use av_templates::{get_known, object_vtype, plain, pushed, single};
use jv_frames::ref_vtype;
use jv_table::ops;
use jv_types::{Name, RefType, VType};
use sqlite_items::Boxed;
use std::alloc::{AllocError, Global};

/// The type of arrays of objects. Only memory can be wanting.
fn objects_type(alloc: Global) -> Result<RefType, AllocError>
    ensures { IfOk result (λ made. made ≡ objects_type) }
{
    let object = RefType::Class(Name::from_slice(alloc, b"java/lang/Object".as_slice())?);
    Ok(RefType::Array(Boxed::new(alloc, object)?))
}

/// The types of an array of objects and of a place in it. Only memory can be wanting.
fn array_and_place(alloc: Global) -> Result<Vec<VType>, AllocError>
    ensures { IfOk result (λ made. made.items ≡ ref_vtype objects_type ∷ types.Integer ∷ []) }
{
    let array = single(alloc, ref_vtype(alloc, &objects_type(alloc)?)?)?;
    pushed(alloc, array.as_slice(), VType::Integer)
}

/// Puts what is known, as an array of objects, and its first place. Where memory is wanting the builder is given up.
fn first_place(builder: CodeBuilder, alloc: Global) -> Result<CodeBuilder, AllocError>
    ensures { IfOk result (λ made. made ≡ with_rows builder first_place) }
{
    let empty = Vec::new(alloc);
    let objects = objects_type(alloc)?;
    let of = ref_vtype(alloc, &objects)?;
    let builder = known_as(builder, alloc, empty.as_slice(), &objects)?;
    over_one(builder, alloc, of, plain(ops::ICONST_0))
}

/// Makes known the element at a place of an array. Where memory is wanting the builder is given up.
fn element_kept(builder: CodeBuilder, alloc: Global) -> Result<CodeBuilder, AllocError>
    ensures { IfOk result (λ made. made ≡ with_rows builder element_kept) }
{
    let stack = array_and_place(alloc)?;
    let object = object_vtype(alloc)?;
    let builder = bare(builder, alloc, stack.as_slice(), plain(ops::AALOAD))?;
    keeps(builder, alloc, object)
}

/// Makes known an element of what is known. Where memory is wanting the builder is given up.
fn element_got(builder: CodeBuilder, alloc: Global) -> Result<CodeBuilder, AllocError>
    ensures { IfOk result (λ made. made ≡ with_rows builder element_got) }
{
    let builder = first_place(builder, alloc)?;
    element_kept(builder, alloc)
}

/// Stores what is known at a place of an array. Where memory is wanting the builder is given up.
fn element_stored(builder: CodeBuilder, alloc: Global) -> Result<CodeBuilder, AllocError>
    ensures { IfOk result (λ made. made ≡ with_rows builder element_stored) }
{
    let stack = array_and_place(alloc)?;
    let full = pushed(alloc, stack.as_slice(), object_vtype(alloc)?)?;
    let get = get_known(alloc)?;
    let builder = bare(builder, alloc, stack.as_slice(), get)?;
    bare(builder, alloc, full.as_slice(), plain(ops::AASTORE))
}

/// Stores what is known as an element of what is known. Where memory is wanting the builder is given up.
fn element_put(builder: CodeBuilder, alloc: Global) -> Result<CodeBuilder, AllocError>
    ensures { IfOk result (λ made. made ≡ with_rows builder (first_place ++ element_stored)) }
{
    let builder = first_place(builder, alloc)?;
    element_stored(builder, alloc)
}

/// Stores what is known as an element of what is known, and puts the end. Where memory is wanting the builder is given up.
fn element_put_last(builder: CodeBuilder, alloc: Global) -> Result<CodeBuilder, AllocError>
    ensures { IfOk result (λ made. made ≡ with_rows builder element_put) }
{
    let builder = element_put(builder, alloc)?;
    ends(builder, alloc)
}

/// Puts the item of elements. Where memory is wanting the builder is given up.
pub fn elements_item(builder: CodeBuilder, alloc: Global) -> Result<CodeBuilder, AllocError>
    ensures { IfOk result (λ made. made ≡ with_rows builder elements_item.rows) }
{
    let builder = element_got(builder, alloc)?;
    element_put_last(builder, alloc)
}
