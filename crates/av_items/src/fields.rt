ghost use Rattle.std.specs.Prelude.{◌≡◌, [], IfOk};
ghost use Rattle.jv_types.specs.declared.desc.RefType as refs;
ghost use Rattle.av_standin_of.specs.Codes.{known_as};
ghost use Rattle.av_standin_of.specs.Items.{field_insn, field_item, instance_rows, is_static_field, static_rows};
ghost use Rattle.av_templates.specs.Putting.{with_rows};
ghost use Rattle.av_items.specs.Steps.{both_known, field_got, instance_got, instance_put, put_last, static_got, static_put, static_set};

use crate::rows::{bare, ends, first, keeps, known_as, over_one};
use av_asm::CodeBuilder;
use av_sketches::HolderField;
use av_templates::{pushed, single};
use jv_frames::ref_vtype;
use jv_table::ops;
use jv_types::{Arg, Copied, FieldRef, FieldShape, Insn, RefType, VType};
use std::alloc::AllocError;

/// An instruction on a field. Only memory can be wanting.
fn field_insn(op: u8, of: &HolderField) -> Result<Insn, AllocError>
    ensures { IfOk result (λ made. made ≡ field_insn op of.now.class of.now.field) }
{
    let field = FieldRef {
        class: of.class.copy()?,
        name: of.field.name.copy()?,
        desc: of.field.desc.copy(of.class.allocator())?,
    };
    Ok(Insn {
        op,
        wide: false,
        arg: Arg::Field(field),
    })
}

/// Makes known what a static field has. Where memory is wanting the builder is given up.
fn static_got(builder: CodeBuilder, of: &HolderField) -> Result<CodeBuilder, AllocError>
    ensures { IfOk result (λ made. made ≡ with_rows builder (static_got of.now.class of.now.field of.now.kind)) }
{
    let alloc = of.class.allocator();
    let kept = ref_vtype(alloc, &of.kind)?;
    let insn = field_insn(ops::GETSTATIC, of)?;
    let builder = first(builder, alloc, insn)?;
    keeps(builder, alloc, kept)
}

/// Puts the instruction that sets a static field, and the end. Where memory is wanting the builder is given up.
fn static_set(builder: CodeBuilder, of: &HolderField) -> Result<CodeBuilder, AllocError>
    ensures { IfOk result (λ made. made ≡ with_rows builder (static_set of.now.class of.now.field of.now.kind)) }
{
    let alloc = of.class.allocator();
    let kept = ref_vtype(alloc, &of.kind)?;
    let insn = field_insn(ops::PUTSTATIC, of)?;
    let builder = over_one(builder, alloc, kept, insn)?;
    ends(builder, alloc)
}

/// Has a static field get what is known, and puts the end. Where memory is wanting the builder is given up.
fn static_put(builder: CodeBuilder, of: &HolderField) -> Result<CodeBuilder, AllocError>
    ensures { IfOk result (λ made. made ≡ with_rows builder (static_put of.now.class of.now.field of.now.kind)) }
{
    let alloc = of.class.allocator();
    let empty = Vec::new(alloc);
    let builder = known_as(builder, alloc, empty.as_slice(), &of.kind)?;
    static_set(builder, of)
}

/// Puts the item of a static field. Where memory is wanting the builder is given up.
fn static_rows(builder: CodeBuilder, of: &HolderField) -> Result<CodeBuilder, AllocError>
    ensures { IfOk result (λ made. made ≡ with_rows builder (static_rows of.now.class of.now.field of.now.kind)) }
{
    let builder = static_got(builder, of)?;
    static_put(builder, of)
}

/// Puts what is known, as an object of the class of a field. Where memory is wanting the builder is given up.
fn object_known(builder: CodeBuilder, of: &HolderField) -> Result<CodeBuilder, AllocError>
    ensures { IfOk result (λ made. made ≡ with_rows builder (known_as 0 [] [] (refs.Class of.now.class))) }
{
    let alloc = of.class.allocator();
    let empty = Vec::new(alloc);
    let class = RefType::Class(of.class.copy()?);
    known_as(builder, alloc, empty.as_slice(), &class)
}

/// Makes known what a field of the object on the stack has. Where memory is wanting the builder is given up.
fn field_got(builder: CodeBuilder, of: &HolderField) -> Result<CodeBuilder, AllocError>
    ensures { IfOk result (λ made. made ≡ with_rows builder (field_got of.now.class of.now.field of.now.kind)) }
{
    let alloc = of.class.allocator();
    let kept = ref_vtype(alloc, &of.kind)?;
    let object = VType::Class(of.class.copy()?);
    let insn = field_insn(ops::GETFIELD, of)?;
    let builder = over_one(builder, alloc, object, insn)?;
    keeps(builder, alloc, kept)
}

/// Makes known what a field of what is known has. Where memory is wanting the builder is given up.
fn instance_got(builder: CodeBuilder, of: &HolderField) -> Result<CodeBuilder, AllocError>
    ensures { IfOk result (λ made. made ≡ with_rows builder (instance_got of.now.class of.now.field of.now.kind)) }
{
    let builder = object_known(builder, of)?;
    field_got(builder, of)
}

/// Puts what is known, as an object of the class of a field and as a value of the field's type. Where memory is wanting the
/// builder is given up.
fn both_known(builder: CodeBuilder, of: &HolderField) -> Result<CodeBuilder, AllocError>
    ensures { IfOk result (λ made. made ≡ with_rows builder (both_known of.now.class of.now.kind)) }
{
    let alloc = of.class.allocator();
    let object = single(alloc, VType::Class(of.class.copy()?))?;
    let builder = object_known(builder, of)?;
    known_as(builder, alloc, object.as_slice(), &of.kind)
}

/// Puts the instruction that sets a field, and the end. Where memory is wanting the builder is given up.
fn put_last(builder: CodeBuilder, of: &HolderField) -> Result<CodeBuilder, AllocError>
    ensures { IfOk result (λ made. made ≡ with_rows builder (put_last of.now.class of.now.field of.now.kind)) }
{
    let alloc = of.class.allocator();
    let mut stack = single(alloc, VType::Class(of.class.copy()?))?;
    stack.push(ref_vtype(alloc, &of.kind)?)?;
    let builder = bare(
        builder,
        alloc,
        stack.as_slice(),
        field_insn(ops::PUTFIELD, of)?,
    )?;
    ends(builder, alloc)
}

/// Has a field of what is known get what is known, and puts the end. Where memory is wanting the builder is given up.
fn instance_put(builder: CodeBuilder, of: &HolderField) -> Result<CodeBuilder, AllocError>
    ensures { IfOk result (λ made. made ≡ with_rows builder (instance_put of.now.class of.now.field of.now.kind)) }
{
    let builder = both_known(builder, of)?;
    put_last(builder, of)
}

/// Puts the item of a field of objects. Where memory is wanting the builder is given up.
fn instance_rows(builder: CodeBuilder, of: &HolderField) -> Result<CodeBuilder, AllocError>
    ensures { IfOk result (λ made. made ≡ with_rows builder (instance_rows of.now.class of.now.field of.now.kind)) }
{
    let builder = instance_got(builder, of)?;
    instance_put(builder, of)
}

/// Whether a field is static (JVMS table 4.5-A).
fn is_static_field(field: &FieldShape) -> bool
    ensures { result ≡ is_static_field field.now }
{
    field.flags.0 & 8 == 8
}

/// Puts the item of a field. Where memory is wanting the builder is given up.
pub fn field_item(builder: CodeBuilder, of: &HolderField) -> Result<CodeBuilder, AllocError>
    ensures { IfOk result (λ made. made ≡ with_rows builder (field_item of.now.class of.now.field of.now.kind).rows) }
{
    if is_static_field(&of.field) {
        static_rows(builder, of)
    } else {
        instance_rows(builder, of)
    }
}
