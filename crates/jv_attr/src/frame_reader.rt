ghost use Rattle.std.specs.Prelude.{◌≡◌};
ghost use Rattle.jv_pool.specs.Lookups.{names, is_class};
ghost use Rattle.jv_attr.specs.FrameText.{has_arg, group_of};
ghost use Rattle.jv_read.specs.Reading.{Gives, GivesAll};
ghost use Rattle.jv_attr.specs.Steps.AttrReading.{arg_at, type_at, types_at, counted_types_at, same_one_at, same_one_extended_at, delta_at, append_at, full_at, parts_at, frame_at, frames_at, maps_at};

use crate::frame::{MapFrame, MapType};
use jv_bytes::Cursor;
use jv_pool::{Pool, PoolItem};
use jv_read::{Part, ReadFault, read_counted, read_many, read_u1, read_u2};
use jv_table::{FrameGroup, frame_kind, frame_tags, type_tag, vtype_tags};
use jv_types::Seq;
use std::alloc::Global;

/// Whether an index names a class.
pub fn names_class(pool: &Pool, i: u16) -> bool
    ensures { result ≡ names is_class pool.now i }
{
    matches!(pool.item(i), Some(PoolItem::Class(_)))
}

/// Whether a number follows the tag of a verification type, where there is such a tag.
#[tactic(auto, unfolding(crate::specs::FrameText::has_arg))]
pub fn has_arg(tag: u8) -> Option<bool>
    ensures { result ≡ has_arg tag }
{
    match type_tag(tag) {
        Some(row) => Some(row.arg),
        None => None,
    }
}

/// The group of a frame's kind, where there is such a kind.
#[tactic(auto, unfolding(crate::specs::FrameText::group_of))]
pub fn group_of(kind: u8) -> Option<FrameGroup>
    ensures { result ≡ group_of kind }
{
    match frame_kind(kind) {
        Some(row) => Some(row.group),
        None => None,
    }
}

/// The number behind a tag, and 0 where none is written.
#[tactic(auto, unfolding(crate::specs::Steps::AttrReading::arg_at))]
fn read_arg(cursor: &mut Cursor, written: bool) -> Result<u16, ReadFault>
    ensures { Gives (λ x. x) result cursor.new (arg_at written cursor.old) }
{
    if written { read_u2(cursor) } else { Ok(0) }
}

/// A verification type (JVMS 4.7.4). The number of an object names a class.
#[tactic(auto, unfolding(crate::specs::Steps::AttrReading::type_at))]
fn read_type(cursor: &mut Cursor, pool: &Pool) -> Result<MapType, ReadFault>
    ensures { Gives (λ x. x) result cursor.new (type_at pool.now cursor.old) }
{
    let tag = read_u1(cursor)?;
    let Some(written) = has_arg(tag) else {
        return Err(ReadFault::Bad);
    };
    let arg = read_arg(cursor, written)?;
    if tag == vtype_tags::OBJECT && !names_class(pool, arg) {
        return Err(ReadFault::Bad);
    }
    Ok(MapType { tag, arg })
}

/// Verification types, read one by one.
#[derive(Clone, Copy)]
struct TypePart<'p> {
    pool: &'p Pool,
}

impl Part for TypePart<'_> {
    type Item = MapType;

    ghost part_at = { λ p bytes. type_at p.pool.now bytes };

    fn read(&self, cursor: &mut Cursor) -> Result<MapType, ReadFault> {
        read_type(cursor, self.pool)
    }
}

/// As many verification types.
fn read_types(
    alloc: Global,
    cursor: &mut Cursor,
    pool: &Pool,
    count: u16,
) -> Result<Seq<MapType>, ReadFault>
    ensures { Gives (λ x. x) result cursor.new (types_at pool.now count cursor.old) }
{
    let types = read_many(alloc, cursor, &TypePart { pool }, u64::from(count))?;
    Ok(Seq::from_vec(types))
}

/// A count, and as many verification types.
fn read_counted_types(
    alloc: Global,
    cursor: &mut Cursor,
    pool: &Pool,
) -> Result<Seq<MapType>, ReadFault>
    ensures { Gives (λ x. x) result cursor.new (counted_types_at pool.now cursor.old) }
{
    let types = read_counted(alloc, cursor, &TypePart { pool })?;
    Ok(Seq::from_vec(types))
}

/// A frame without a delta, which has one type on the stack.
#[tactic(auto, unfolding(crate::specs::Steps::AttrReading::same_one_at))]
fn read_same_one(
    alloc: Global,
    cursor: &mut Cursor,
    pool: &Pool,
    kind: u8,
) -> Result<MapFrame, ReadFault>
    ensures { Gives (λ x. x) result cursor.new (same_one_at pool.now kind cursor.old) }
{
    let stack = read_types(alloc, cursor, pool, 1)?;
    Ok(MapFrame {
        kind,
        delta: 0,
        locals: Seq::new(alloc),
        stack,
    })
}

/// A frame with a delta, which has one type on the stack.
#[tactic(auto, unfolding(crate::specs::Steps::AttrReading::same_one_extended_at))]
fn read_same_one_extended(
    alloc: Global,
    cursor: &mut Cursor,
    pool: &Pool,
    kind: u8,
) -> Result<MapFrame, ReadFault>
    ensures { Gives (λ x. x) result cursor.new (same_one_extended_at pool.now kind cursor.old) }
{
    let delta = read_u2(cursor)?;
    let stack = read_types(alloc, cursor, pool, 1)?;
    Ok(MapFrame {
        kind,
        delta,
        locals: Seq::new(alloc),
        stack,
    })
}

/// A frame that has a delta alone.
#[tactic(auto, unfolding(crate::specs::Steps::AttrReading::delta_at))]
fn read_delta(alloc: Global, cursor: &mut Cursor, kind: u8) -> Result<MapFrame, ReadFault>
    ensures { Gives (λ x. x) result cursor.new (delta_at kind cursor.old) }
{
    let delta = read_u2(cursor)?;
    Ok(MapFrame {
        kind,
        delta,
        locals: Seq::new(alloc),
        stack: Seq::new(alloc),
    })
}

/// A frame that appends as many locals as its kind is above that of a frame that has the same ones.
#[tactic(auto, unfolding(crate::specs::Steps::AttrReading::append_at))]
fn read_append(
    alloc: Global,
    cursor: &mut Cursor,
    pool: &Pool,
    kind: u8,
) -> Result<MapFrame, ReadFault>
    ensures { Gives (λ x. x) result cursor.new (append_at pool.now kind cursor.old) }
{
    let delta = read_u2(cursor)?;
    let count = u16::from(kind.saturating_sub(frame_tags::SAME_EXTENDED));
    let locals = read_types(alloc, cursor, pool, count)?;
    Ok(MapFrame {
        kind,
        delta,
        locals,
        stack: Seq::new(alloc),
    })
}

/// A frame that has everything.
#[tactic(auto, unfolding(crate::specs::Steps::AttrReading::full_at))]
fn read_full(
    alloc: Global,
    cursor: &mut Cursor,
    pool: &Pool,
    kind: u8,
) -> Result<MapFrame, ReadFault>
    ensures { Gives (λ x. x) result cursor.new (full_at pool.now kind cursor.old) }
{
    let delta = read_u2(cursor)?;
    let locals = read_counted_types(alloc, cursor, pool)?;
    let stack = read_counted_types(alloc, cursor, pool)?;
    Ok(MapFrame {
        kind,
        delta,
        locals,
        stack,
    })
}

/// What is behind the kind of a frame of a group.
#[tactic(auto, unfolding(crate::specs::Steps::AttrReading::parts_at))]
fn read_parts(
    alloc: Global,
    cursor: &mut Cursor,
    pool: &Pool,
    group: FrameGroup,
    kind: u8,
) -> Result<MapFrame, ReadFault>
    ensures { Gives (λ x. x) result cursor.new (parts_at pool.now group kind cursor.old) }
{
    match group {
        FrameGroup::Same => Ok(MapFrame {
            kind,
            delta: 0,
            locals: Seq::new(alloc),
            stack: Seq::new(alloc),
        }),
        FrameGroup::SameOne => read_same_one(alloc, cursor, pool, kind),
        FrameGroup::SameOneExtended => read_same_one_extended(alloc, cursor, pool, kind),
        FrameGroup::Chop | FrameGroup::SameExtended => read_delta(alloc, cursor, kind),
        FrameGroup::Append => read_append(alloc, cursor, pool, kind),
        FrameGroup::Full => read_full(alloc, cursor, pool, kind),
    }
}

/// A frame (JVMS 4.7.4).
#[tactic(auto, unfolding(crate::specs::Steps::AttrReading::frame_at))]
fn read_frame(alloc: Global, cursor: &mut Cursor, pool: &Pool) -> Result<MapFrame, ReadFault>
    ensures { Gives (λ x. x) result cursor.new (frame_at pool.now cursor.old) }
{
    let kind = read_u1(cursor)?;
    let Some(group) = group_of(kind) else {
        return Err(ReadFault::Bad);
    };
    read_parts(alloc, cursor, pool, group, kind)
}

/// Frames, read one by one.
#[derive(Clone, Copy)]
struct FramePart<'p> {
    alloc: Global,
    pool: &'p Pool,
}

impl Part for FramePart<'_> {
    type Item = MapFrame;

    ghost part_at = { λ p bytes. frame_at p.pool.now bytes };

    fn read(&self, cursor: &mut Cursor) -> Result<MapFrame, ReadFault> {
        read_frame(self.alloc, cursor, self.pool)
    }
}

/// A count, and as many frames.
fn read_frames(alloc: Global, cursor: &mut Cursor, pool: &Pool) -> Result<Seq<MapFrame>, ReadFault>
    ensures { Gives (λ x. x) result cursor.new (frames_at pool.now cursor.old) }
{
    let frames = read_counted(alloc, cursor, &FramePart { alloc, pool })?;
    Ok(Seq::from_vec(frames))
}

/// The frames that are all of a content.
#[tactic(auto, unfolding(crate::specs::Steps::AttrReading::maps_at))]
pub fn read_maps(alloc: Global, content: &[u8], pool: &Pool) -> Result<Seq<MapFrame>, ReadFault>
    ensures { GivesAll (λ x. x) result (maps_at pool.now content.now) }
{
    let mut cursor = Cursor::new(content);
    let frames = read_frames(alloc, &mut cursor, pool)?;
    if cursor.left() != 0 {
        return Err(ReadFault::Bad);
    }
    Ok(frames)
}
