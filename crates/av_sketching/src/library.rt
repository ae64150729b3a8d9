ghost use Rattle.std.specs.Prelude.{◌≡◌, ℕ, IfOk};
ghost use Rattle.jv_world.specs.Worlds.{object_name};
ghost use Rattle.av_standin_of.specs.Classes.{holder_field, library_class};
ghost use Rattle.av_sketches.specs.Sketches.{made_class};

use av_sketches::Sketch;
use av_templates::library_name;
use jv_types::{Access, Desc, FieldShape, Name, RefType, Seq};
use std::alloc::{AllocError, Global};

/// The name of Object. Only memory can be wanting.
fn object_name(alloc: Global) -> Result<Name, AllocError>
    ensures { IfOk result (λ name. name ≡ object_name) }
{
    Name::from_slice(alloc, b"java/lang/Object".as_slice())
}

/// A static field that holds any object. Only memory can be wanting.
fn holder_field(alloc: Global, name: &[u8]) -> Result<FieldShape, AllocError>
    ensures { IfOk result (λ made. made ≡ holder_field name.now) }
{
    Ok(FieldShape {
        name: Name::from_slice(alloc, name)?,
        desc: Desc::Ref(RefType::Class(object_name(alloc)?)),
        flags: Access(0x0009),
    })
}

/// The fields of averroes/Library. Only memory can be wanting.
fn holder_fields(alloc: Global) -> Result<Vec<FieldShape>, AllocError>
    ensures { IfOk result (λ made. made.items ≡ library_class.fields) }
{
    let mut fields = Vec::new(alloc);
    fields.push(holder_field(alloc, b"fresh".as_slice())?)?;
    fields.push(holder_field(alloc, b"known".as_slice())?)?;
    Ok(fields)
}

/// The sketch of averroes/Library, whose two static fields hold what the library knows and what was only made. Only
/// memory can be wanting.
pub fn library_sketch(alloc: Global) -> Result<Sketch, AllocError>
    ensures { IfOk result (λ made. (dims : ℕ) → made_class dims made ≡ library_class) }
{
    Ok(Sketch {
        name: library_name(alloc)?,
        flags: Access(0x0031),
        parent: Some(object_name(alloc)?),
        interfaces: Seq::from_vec(Vec::new(alloc)),
        fields: Seq::from_vec(holder_fields(alloc)?),
        methods: Seq::from_vec(Vec::new(alloc)),
    })
}
