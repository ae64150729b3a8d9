ghost use Rattle.std.specs.Prelude.{◌≡◌};
ghost use Rattle.jv_insn.specs.Entries.{Grows};
ghost use Rattle.av_asm.specs.Mapping.{map_type, put_object, put_type, is_wide, values_of, put_each};
ghost use Rattle.av_asm.specs.Steps.{Writes, WritesAll};

use crate::entries::add_class;
use crate::pushing::push;
use crate::refs::object_text;
use jv_attr::MapType;
use jv_insn::EncodeRefusal;
use jv_pool::PoolWriter;
use jv_table::vtype_tags;
use jv_types::VType;
use std::alloc::Global;

/// A written type of a tag that has no number behind it.
fn plain(tag: u8) -> MapType
    ensures { result ≡ map_type tag 0 }
{
    MapType { tag, arg: 0 }
}

/// Writes a class or array type, and adds its class to the pool.
fn map_object(alloc: Global, pool: &mut PoolWriter, of: &VType) -> Result<MapType, EncodeRefusal>
    ensures put { Writes result pool.new (put_object of.now pool.old) }
    ensures grown { Grows pool.old pool.new }
{
    let text = object_text(alloc, of)?;
    match add_class(pool, text) {
        Ok(index) => Ok(MapType {
            tag: vtype_tags::OBJECT,
            arg: index,
        }),
        Err(e) => Err(e),
    }
}

/// Writes a verification type (JVMS 4.7.4), and adds the class that it names to the pool.
fn map_type(alloc: Global, pool: &mut PoolWriter, of: &VType) -> Result<MapType, EncodeRefusal>
    ensures put { Writes result pool.new (put_type of.now pool.old) }
    ensures grown { Grows pool.old pool.new }
{
    match of {
        VType::Top => Ok(plain(vtype_tags::TOP)),
        VType::Integer => Ok(plain(vtype_tags::INTEGER)),
        VType::Float => Ok(plain(vtype_tags::FLOAT)),
        VType::Long => Ok(plain(vtype_tags::LONG)),
        VType::Double => Ok(plain(vtype_tags::DOUBLE)),
        VType::Null => Ok(plain(vtype_tags::NULL)),
        VType::UninitThis => Ok(plain(vtype_tags::UNINITIALIZED_THIS)),
        VType::Uninit(pc) => Ok(MapType {
            tag: vtype_tags::UNINITIALIZED,
            arg: *pc,
        }),
        VType::Class(_) | VType::PrimArray(_) | VType::Array(_) => map_object(alloc, pool, of),
    }
}

/// Whether values of a type take two words.
fn is_wide(of: &VType) -> bool
    ensures { result ≡ is_wide of.now }
{
    matches!(of, VType::Long | VType::Double)
}

/// Writes the types of the values that take these words, each once, and adds the classes that they name.
pub fn map_types(
    alloc: Global,
    pool: &mut PoolWriter,
    words: &[VType],
) -> Result<Vec<MapType>, EncodeRefusal>
    ensures put { WritesAll result pool.new (put_each put_type (values_of words.now) pool.old) }
    ensures grown { Grows pool.old pool.new }
{
    let mut types = Vec::new(alloc);
    let mut second = false;
    for word in words {
        if second {
            second = false;
            continue;
        }
        match map_type(alloc, pool, word) {
            Ok(of) => push(&mut types, of)?,
            Err(e) => return Err(e),
        }
        second = is_wide(word);
    }
    Ok(types)
}
