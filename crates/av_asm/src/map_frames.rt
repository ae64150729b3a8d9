ghost use Rattle.std.specs.Prelude.{◌≡◌, IsTrue};
ghost use Rattle.std.specs.Ordering.{nat_cmp};
ghost use Rattle.std.specs.BTreeSet.{contains};
ghost use Rattle.jv_types.specs.Bodies.{rises_from};
ghost use Rattle.jv_insn.specs.Entries.{Grows};
ghost use Rattle.av_asm.specs.Mapping.{put_frame, deltas_from, put_each};
ghost use Rattle.av_asm.specs.Planning.{frames_where};
ghost use Rattle.av_asm.specs.Steps.{Writes, WritesAll};

use crate::map_types::map_types;
use crate::pushing::push;
use jv_attr::MapFrame;
use jv_insn::EncodeRefusal;
use jv_pool::PoolWriter;
use jv_table::frame_tags;
use jv_types::{Frame, Seq};
use std::alloc::Global;
use std::collections::BTreeSet;

/// Writes a full frame (JVMS 4.7.4) that stands so far behind the place from which it is counted, and adds
/// the classes that it names.
fn map_frame(
    alloc: Global,
    pool: &mut PoolWriter,
    delta: u16,
    frame: &Frame,
) -> Result<MapFrame, EncodeRefusal>
    ensures put { Writes result pool.new (put_frame (delta, frame.now) pool.old) }
    ensures grown { Grows pool.old pool.new }
{
    match map_types(alloc, pool, frame.locals.as_slice()) {
        Ok(locals) => match map_types(alloc, pool, frame.stack.as_slice()) {
            Ok(stack) => Ok(MapFrame {
                kind: frame_tags::FULL,
                delta,
                locals: Seq::from_vec(locals),
                stack: Seq::from_vec(stack),
            }),
            Err(e) => Err(e),
        },
        Err(e) => Err(e),
    }
}

/// Writes full frames for those at targets, and adds the classes that they name.
pub fn map_frames(
    alloc: Global,
    pool: &mut PoolWriter,
    targets: &BTreeSet<u16>,
    rows: &[(u16, Frame)],
) -> Result<Vec<MapFrame>, EncodeRefusal>
    requires { IsTrue (rises_from 0 rows.now) }
    ensures put { WritesAll result pool.new (put_each put_frame (deltas_from 0 (frames_where (contains nat_cmp targets.now) rows.now)) pool.old) }
    ensures grown { Grows pool.old pool.new }
{
    let mut frames = Vec::new(alloc);
    let mut base = 0u32;
    for row in rows {
        if !targets.contains(&row.0) {
            continue;
        }
        let delta = (u32::from(row.0) - base) as u16;
        match map_frame(alloc, pool, delta, &row.1) {
            Ok(frame) => push(&mut frames, frame)?,
            Err(e) => return Err(e),
        }
        base = u32::from(row.0) + 1;
    }
    Ok(frames)
}
