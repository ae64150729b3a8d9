ghost use Rattle.std.specs.Prelude.{◌≡◌, ◌↔◌, IsTrue};
ghost use Rattle.std.specs.List.{list_all};
ghost use Rattle.jv_attr.specs.AttrText.{HasFew};
ghost use Rattle.jv_attr.specs.Steps.Few.{has_few_parts, has_few_types, are_few_frames, is_inner_few, is_few_code, has_few};

use crate::attr::{Attr, AttrBody, CodeAttr, NoCode};
use crate::frame::MapFrame;
use crate::frame_reader::group_of;
use jv_table::FrameGroup;

/// Whether the counts of types that a frame of a group writes fit two bytes.
fn has_few_parts(group: Option<FrameGroup>, frame: &MapFrame) -> bool
    ensures { result ≡ has_few_parts group frame.now }
{
    match group {
        Some(FrameGroup::Full) => frame.locals.len() < 65536 && frame.stack.len() < 65536,
        _ => true,
    }
}

/// Whether the counts of types that a frame writes fit two bytes.
#[tactic(auto, unfolding(crate::specs::Steps::Few::has_few_types))]
fn has_few_types(frame: &MapFrame) -> bool
    ensures { result ≡ has_few_types frame.now }
{
    has_few_parts(group_of(frame.kind), frame)
}

/// Whether the counts of types that each frame writes fit two bytes.
fn all_frames_few(frames: &[MapFrame]) -> bool
    ensures { result ≡ list_all has_few_types frames.now }
{
    frames.iter().all(|frame| has_few_types(frame))
}

/// Whether the count of the frames and theirs fit two bytes.
fn are_few_frames(frames: &[MapFrame]) -> bool
    ensures { result ≡ are_few_frames frames.now }
{
    frames.len() < 65536 && all_frames_few(frames)
}

/// Whether the counts in an attribute of a `Code` fit two bytes.
#[tactic(auto, unfolding(crate::specs::Steps::Few::is_inner_few))]
fn is_inner_few(attr: &Attr<NoCode>) -> bool
    ensures { result ≡ is_inner_few attr.now }
{
    match &attr.body {
        AttrBody::Code(code) => match *code {},
        AttrBody::Maps(frames) => are_few_frames(frames.as_slice()),
        AttrBody::Raw(_) => true,
    }
}

/// Whether the counts in each attribute of a `Code` fit two bytes.
fn all_inners_few(attrs: &[Attr<NoCode>]) -> bool
    ensures { result ≡ list_all is_inner_few attrs.now }
{
    attrs.iter().all(|attr| is_inner_few(attr))
}

/// Whether the counts in a `Code` fit two bytes.
fn is_few_code(code: &CodeAttr) -> bool
    ensures { result ≡ is_few_code code.now }
{
    (code.handlers.len() < 65536 && code.attrs.len() < 65536)
        && all_inners_few(code.attrs.as_slice())
}

/// Whether the counts in an attribute fit two bytes.
fn has_few_counts(attr: &Attr) -> bool
    ensures { result ≡ has_few attr.now }
{
    match &attr.body {
        AttrBody::Code(code) => is_few_code(code),
        AttrBody::Maps(frames) => are_few_frames(frames.as_slice()),
        AttrBody::Raw(_) => true,
    }
}

/// Whether each count in an attribute is at most 65535, so that two bytes hold it.
pub fn has_few(attr: &Attr) -> bool
    ensures { IsTrue result ↔ HasFew attr.now }
{
    has_few_counts(attr)
}
