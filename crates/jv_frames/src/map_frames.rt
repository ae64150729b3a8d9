ghost use Rattle.std.specs.Prelude.{◌≡◌, ◌<◌, ◌≤◌, ◌+◌, ◌↔◌, IsTrue, All, IfOk, IfErr};
ghost use Rattle.jv_types.specs.Bodies.{IsStart};
ghost use Rattle.jv_attr.specs.FrameText.{group_of};
ghost use Rattle.jv_frames.specs.Finding.{FindsList, FindsTwo};
ghost use Rattle.jv_frames.specs.Maps.{frame_delta, IsFront, IsLonger, AreLocalsIn, HasTypes, IsNewAt, IsMade, FitsBody, IsMapFrame};

use crate::map_types::types_of;
use crate::words::word_count;
use jv_attr::{MapFrame, MapType};
use jv_pool::Pool;
use jv_read::ReadFault;
use jv_table::{FrameGroup, frame_kind, frame_tags, ops};
use jv_types::{Body, VType};
use std::alloc::Global;

/// The group of a frame's kind, the standard's frame_type, where there is such a kind (JVMS 4.7.4).
#[tactic(auto, unfolding(jv_attr::specs::FrameText::group_of))]
fn group_of(kind: u8) -> Option<FrameGroup>
    ensures { result ≡ group_of kind }
{
    match frame_kind(kind) {
        Some(row) => Some(row.group),
        None => None,
    }
}

/// How far a frame lies behind the place from which it is counted: the standard's offset_delta (JVMS 4.7.4).
pub fn frame_delta(f: &MapFrame) -> u16
    ensures { result ≡ frame_delta f.now }
{
    match group_of(f.kind) {
        Some(FrameGroup::Same) => u16::from(f.kind),
        Some(FrameGroup::SameOne) => u16::from(
            f.kind
                .saturating_sub(frame_tags::FIRST_SAME_LOCALS_1_STACK_ITEM),
        ),
        _ => f.delta,
    }
}

/// The types without so many at the end, where there are so many.
fn chopped(locals: Vec<VType>, count: u8) -> Result<Vec<VType>, ReadFault>
    ensures { FindsList (IsFront locals.items count) result }
{
    let mut left = locals;
    match left.len().checked_sub(usize::from(count)) {
        None => Err(ReadFault::Bad),
        Some(rest) => {
            left.truncate(rest);
            Ok(left)
        }
    }
}

/// The types with these written ones behind them.
fn appended(
    alloc: Global,
    pool: &Pool,
    locals: Vec<VType>,
    written: &[MapType],
) -> Result<Vec<VType>, ReadFault>
    ensures { FindsList (IsLonger pool.now locals.items written.now) result }
{
    let mut longer = locals;
    match types_of(alloc, pool, written) {
        Ok(more) => {
            let mut more = more;
            longer.append(&mut more)?;
            Ok(longer)
        }
        Err(e) => Err(e),
    }
}

/// The types of local variables that a frame has, where these were before it (JVMS 4.7.4).
fn locals_of(
    alloc: Global,
    pool: &Pool,
    before: Vec<VType>,
    f: &MapFrame,
) -> Result<Vec<VType>, ReadFault>
    ensures { FindsList (AreLocalsIn (group_of f.now.kind) pool.now before.items f.now) result }
{
    match group_of(f.kind) {
        None => Err(ReadFault::Bad),
        Some(FrameGroup::Chop) => chopped(before, frame_tags::SAME_EXTENDED.saturating_sub(f.kind)),
        Some(FrameGroup::Append) => appended(alloc, pool, before, f.locals.as_slice()),
        Some(FrameGroup::Full) => types_of(alloc, pool, f.locals.as_slice()),
        Some(FrameGroup::Same) => Ok(before),
        Some(FrameGroup::SameOne) => Ok(before),
        Some(FrameGroup::SameOneExtended) => Ok(before),
        Some(FrameGroup::SameExtended) => Ok(before),
    }
}

/// The types of local variables and of stack items that a frame has.
fn frame_types(
    alloc: Global,
    pool: &Pool,
    before: Vec<VType>,
    f: &MapFrame,
) -> Result<(Vec<VType>, Vec<VType>), ReadFault>
    ensures { FindsTwo (HasTypes pool.now before.items f.now) result }
{
    match locals_of(alloc, pool, before, f) {
        Ok(locals) => match types_of(alloc, pool, f.stack.as_slice()) {
            Ok(stack) => Ok((locals, stack)),
            Err(e) => Err(e),
        },
        Err(e) => Err(e),
    }
}

/// Whether a `new` stands at an offset.
fn is_new(body: &Body, pc: u16) -> bool
    ensures { IsTrue result ↔ IsNewAt body.now.insns pc }
{
    match body.at(pc) {
        None => false,
        Some(insn) => insn.op == ops::NEW,
    }
}

/// Whether a type, where it isn't initialised yet, is that of a `new` of the code.
fn is_made(body: &Body, of: &VType) -> bool
    ensures { IsTrue result ↔ IsMade body.now.insns of.now }
{
    match of {
        VType::Uninit(pc) => is_new(body, *pc),
        _ => true,
    }
}

/// Whether each of these types is.
fn are_made(body: &Body, types: &[VType]) -> bool
    ensures { IsTrue result ↔ All (IsMade body.now.insns) types.now }
{
    for of in types {
        if !is_made(body, of) {
            return false;
        }
    }
    true
}

/// Whether types of local variables and of stack items fit a body.
fn fits_body(body: &Body, locals: &[VType], stack: &[VType]) -> bool
    ensures { IsTrue result ↔ FitsBody body.now locals.now stack.now }
{
    word_count(locals) <= u32::from(body.max_locals)
        && word_count(stack) <= u32::from(body.max_stack)
        && are_made(body, locals)
        && are_made(body, stack)
}

/// Whether an instruction starts at an offset. None does at one that isn't a number of 16 bits.
fn starts(body: &Body, offset: u32) -> bool
    ensures exact { IsTrue result ↔ IsStart body.now.insns offset }
    ensures within { IsTrue result → offset < 65536 }
{
    match u16::try_from(offset) {
        Ok(pc) => body.at(pc).is_some(),
        Err(_) => body.next(u16::MAX).is_some(),
    }
}

/// The types of local variables and of stack items of a frame of a body's map (JVMS 4.7.4), counted from a
/// place, where the local variables had these types before it.
pub fn map_frame(
    alloc: Global,
    pool: &Pool,
    body: &Body,
    base: u32,
    before: Vec<VType>,
    f: &MapFrame,
) -> Result<(Vec<VType>, Vec<VType>), ReadFault>
    requires { base ≤ 65536 }
    ensures found { FindsTwo (IsMapFrame pool.now body.now base before.items f.now) result }
    ensures within { IfOk result (λ found. base + frame_delta f.now < 65536) }
{
    if !starts(body, base + u32::from(frame_delta(f))) {
        return Err(ReadFault::Bad);
    }
    match frame_types(alloc, pool, before, f) {
        Ok((locals, stack)) => {
            if fits_body(body, locals.as_slice(), stack.as_slice()) {
                Ok((locals, stack))
            } else {
                Err(ReadFault::Bad)
            }
        }
        Err(e) => Err(e),
    }
}
