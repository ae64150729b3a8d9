ghost use Rattle.std.specs.Prelude.{◌≡◌, [], ◌∷◌, IfOk, IsTrue};
ghost use Rattle.std.specs.List.{list_any};
ghost use Rattle.std.specs.Ordering.{nat_cmp};
ghost use Rattle.std.specs.BTreeSet.{contains};
ghost use Rattle.jv_types.specs.Bodies.{rises_from};
ghost use Rattle.jv_attr.specs.declared.attr.AttrBody.TheVariants.{Maps};
ghost use Rattle.jv_insn.specs.Entries.{Grows};
ghost use Rattle.av_asm.specs.Mapping.{put_maps};
ghost use Rattle.av_asm.specs.Planning.{frames_where};
ghost use Rattle.av_asm.specs.Steps.{WritesAll};

use crate::entries::add_text;
use crate::map_frames::map_frames;
use crate::pushing::push;
use jv_attr::{Attr, AttrBody, MapFrame, NoCode};
use jv_insn::EncodeRefusal;
use jv_pool::PoolWriter;
use jv_types::{Frame, Seq};
use std::alloc::{AllocError, Global};
use std::collections::BTreeSet;

/// Whether a frame stands at a target.
fn has_map(targets: &BTreeSet<u16>, rows: &[(u16, Frame)]) -> bool
    ensures { result ≡ list_any (λ row. contains nat_cmp targets.now row.0) rows.now }
{
    rows.iter().any(|row| targets.contains(&row.0))
}

/// A StackMapTable alone, by the index of its name. Only memory can be wanting.
fn one_table(
    alloc: Global,
    name: u16,
    frames: Vec<MapFrame>,
) -> Result<Vec<Attr<NoCode>>, AllocError>
    ensures { IfOk result (λ attrs. attrs.items ≡ record { name = name; body = Maps frames.items } ∷ []) }
{
    let mut attrs = Vec::new(alloc);
    let attr = Attr {
        name,
        body: AttrBody::Maps(Seq::from_vec(frames)),
    };
    push(&mut attrs, attr)?;
    Ok(attrs)
}

/// The attributes of a code with these frames: a StackMapTable of those at targets, or none where there are
/// none (JVMS 4.7.4). Its name and the classes that it names are added to the pool.
pub fn map_attrs(
    alloc: Global,
    pool: &mut PoolWriter,
    targets: &BTreeSet<u16>,
    rows: &[(u16, Frame)],
) -> Result<Vec<Attr<NoCode>>, EncodeRefusal>
    requires { IsTrue (rises_from 0 rows.now) }
    ensures put { WritesAll result pool.new (put_maps (frames_where (contains nat_cmp targets.now) rows.now) pool.old) }
    ensures grown { Grows pool.old pool.new }
{
    if !has_map(targets, rows) {
        return Ok(Vec::new(alloc));
    }
    let text = Vec::from_slice(alloc, b"StackMapTable".as_slice())?;
    match add_text(pool, text) {
        Ok(name) => match map_frames(alloc, pool, targets, rows) {
            Ok(frames) => Ok(one_table(alloc, name, frames)?),
            Err(e) => Err(e),
        },
        Err(e) => Err(e),
    }
}
