ghost use Rattle.jv_insn.specs.Entries.{put_class};
ghost use Rattle.av_asm.specs.Mapping.{put_each};
ghost use Rattle.av_standin_of.specs.Files.{put_field};
ghost use Rattle.av_class_files.specs.Steps.{Puts, PutsAll};

use crate::entries::{add_class, add_name, add_text};
use crate::pushing::push;
use crate::refusal::FileRefusal;
use jv_class::Member;
use jv_desc::show_field;
use jv_pool::PoolWriter;
use jv_types::{FieldShape, Name, Seq};
use std::alloc::Global;

/// Adds interfaces, and answers their indices (JVMS 4.1).
pub fn add_interfaces(
    alloc: Global,
    pool: &mut PoolWriter,
    names: &[Name],
) -> Result<Vec<u16>, FileRefusal>
    ensures { PutsAll result pool.new (put_each put_class names.now pool.old) }
{
    let mut indices = Vec::new(alloc);
    for name in names {
        match add_class(pool, name) {
            Ok(index) => push(&mut indices, index)?,
            Err(e) => return Err(e),
        }
    }
    Ok(indices)
}

/// Adds what a field names, and answers the field as it stands in a file (JVMS 4.5).
fn add_field(pool: &mut PoolWriter, field: &FieldShape) -> Result<Member, FileRefusal>
    ensures { Puts result pool.new (put_field field.now pool.old) }
{
    let alloc = field.name.allocator();
    let text = show_field(alloc, &field.desc)?;
    let name = add_name(pool, &field.name)?;
    let desc = add_text(pool, text)?;
    Ok(Member {
        access: field.flags.0,
        name,
        desc,
        attrs: Seq::new(alloc),
    })
}

/// Adds what fields name, and answers the fields as they stand in a file.
pub fn add_fields(
    alloc: Global,
    pool: &mut PoolWriter,
    fields: &[FieldShape],
) -> Result<Vec<Member>, FileRefusal>
    ensures { PutsAll result pool.new (put_each put_field fields.now pool.old) }
{
    let mut members = Vec::new(alloc);
    for field in fields {
        match add_field(pool, field) {
            Ok(member) => push(&mut members, member)?,
            Err(e) => return Err(e),
        }
    }
    Ok(members)
}
