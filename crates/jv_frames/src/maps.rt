ghost use Rattle.std.specs.Prelude.{◌≡◌, IfOk, IfErr};
ghost use Rattle.jv_resolve.specs.Members.{HasMethod};
ghost use Rattle.jv_frames.specs.Maps.{AreMapFrames, IsFirstBad, written_frames, AreFramesOf, FailsFirstAt, BadAt};

use crate::entry::entry_types;
use crate::fault::BadMap;
use crate::map_frames::{frame_delta, map_frame};
use crate::words::frame_of;
use jv_attr::{Attr, AttrBody, CodeAttr, MapFrame, NoCode};
use jv_pool::Pool;
use jv_read::ReadFault;
use jv_types::{Body, Frame, MethodId, VType};
use jv_world::World;
use std::alloc::Global;

/// The frames of the StackMapTable among the attributes of a code; none without it.
fn written_frames(attrs: &[Attr<NoCode>]) -> &[MapFrame]
    ensures { result.now ≡ written_frames attrs.now }
{
    for attr in attrs {
        if let AttrBody::Maps(frames) = &attr.body {
            return frames.as_slice();
        }
    }
    &[]
}

/// The frames of a map with their offsets, where the local variables had these types before the first.
fn map_frames(
    alloc: Global,
    pool: &Pool,
    body: &Body,
    entry: Vec<VType>,
    frames: &[MapFrame],
) -> Result<Vec<(u32, Frame)>, BadMap>
    ensures frames { IfOk result (λ rows. AreMapFrames pool.now body.now 0 entry.items frames.now rows.items) }
    ensures bad { IfErr result (BadAt (IsFirstBad pool.now body.now 0 entry.items frames.now)) }
{
    let mut rows = Vec::new(alloc);
    let mut before = entry;
    let mut base = 0u32;
    for f in frames {
        let pc = base + u32::from(frame_delta(f));
        match map_frame(alloc, pool, body, base, before, f) {
            Ok((locals, stack)) => {
                let frame = frame_of(alloc, body.max_locals, locals.as_slice(), stack.as_slice())?;
                rows.push((pc, frame))?;
                before = locals;
                base = pc + 1;
            }
            Err(ReadFault::Bad) => return Err(BadMap::At { pc }),
            Err(ReadFault::Memory) => return Err(BadMap::Memory),
        }
    }
    Ok(rows)
}

/// The frames that the StackMapTable of a method's code stands for, each with its offset (JVMS 4.7.4,
/// 4.10.1.4). The first is counted from the receiver and the parameters, and each other one from the one
/// before. It is refused exactly where a frame isn't at an instruction, takes more local variables away than
/// there are, has more words than the body has for local variables or for the stack, names an offset that
/// isn't at a `new`, or has a type that is none, which a map of the standard's form over a pool of that form
/// never has: `At` the offset of the first such frame.
pub fn frames_of(
    alloc: Global,
    world: &World,
    id: MethodId,
    pool: &Pool,
    code: &CodeAttr,
    body: &Body,
) -> Result<Vec<(u32, Frame)>, BadMap>
    requires { HasMethod world.now id }
    ensures frames { IfOk result (λ rows. AreFramesOf world.now id pool.now code.now body.now rows.items) }
    ensures bad { IfErr result (BadAt (FailsFirstAt world.now id pool.now code.now body.now)) }
{
    let entry = entry_types(alloc, world, id)?;
    map_frames(
        alloc,
        pool,
        body,
        entry,
        written_frames(code.attrs.as_slice()),
    )
}
