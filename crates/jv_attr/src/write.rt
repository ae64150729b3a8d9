ghost use Rattle.std.specs.Prelude.{◌≡◌, ◌<◌, ◌^◌, ◌++◌, length, Err, Some, OnOk, IfOk};
ghost use Rattle.std.specs.List.{flat_map, AllByRecursion};
ghost use Rattle.jv_pool.specs.PoolText.{u2, u4};
ghost use Rattle.jv_attr.specs.FrameText.{type_text, types_text, parts_text, frame_text, HasFewParts, HasFewTypes, frames_text, AreFewFrames};
ghost use Rattle.jv_attr.specs.AttrText.{body_text, no_code_text, IsNoCode, inner_text, IsInnerFew, IsInnerShort, HasFewWith, handler_text, code_text, IsFewCode, IsShortCode, IsShortWith, attr_text, HasFew, IsShort};

use crate::attr::{Attr, AttrBody, CodeAttr, NoCode};
use crate::frame::{MapFrame, MapType};
use crate::frame_reader::{group_of, has_arg};
use jv_bytes::Writer;
use jv_pool::WriteRefusal;
use jv_table::FrameGroup;
use jv_types::RawHandler;
use std::alloc::{AllocError, Global};

/// Writes a count of two bytes. One of more than 65535 is refused.
fn put_count(writer: &mut Writer, count: usize) -> Result<(), WriteRefusal>
    ensures ok { OnOk result ((count < 2 ^ 16) × (writer.new ≡ writer.old ++ u2 count)) }
    ensures long { result ≡ Err WriteRefusal.TooLong → count < 2 ^ 16 → ⊥ }
{
    if count > 65535 {
        return Err(WriteRefusal::TooLong);
    }
    writer.put_u2(count as u16)?;
    Ok(())
}

/// Writes a verification type (JVMS 4.7.4).
fn put_type(writer: &mut Writer, item: MapType) -> Result<(), AllocError>
    ensures { OnOk result (writer.new ≡ writer.old ++ type_text item) }
{
    writer.put_u1(item.tag)?;
    match has_arg(item.tag) {
        Some(true) => writer.put_u2(item.arg),
        _ => Ok(()),
    }
}

/// Writes verification types one after the other.
fn put_types(writer: &mut Writer, types: &[MapType]) -> Result<(), AllocError>
    ensures { OnOk result (writer.new ≡ writer.old ++ types_text types.now) }
{
    for item in types {
        put_type(writer, *item)?;
    }
    Ok(())
}

/// Writes a frame's delta and types.
fn put_extended(writer: &mut Writer, delta: u16, types: &[MapType]) -> Result<(), AllocError>
    ensures { OnOk result (writer.new ≡ writer.old ++ (u2 delta ++ types_text types.now)) }
{
    writer.put_u2(delta)?;
    put_types(writer, types)
}

/// Writes a count of verification types, and them.
fn put_counted_types(writer: &mut Writer, types: &[MapType]) -> Result<(), WriteRefusal>
    ensures ok { OnOk result ((length types.now < 2 ^ 16) × (writer.new ≡ writer.old ++ (u2 (length types.now) ++ types_text types.now))) }
    ensures long { result ≡ Err WriteRefusal.TooLong → length types.now < 2 ^ 16 → ⊥ }
{
    put_count(writer, types.len())?;
    put_types(writer, types)?;
    Ok(())
}

/// Writes what a full frame has behind its kind.
fn put_full(writer: &mut Writer, frame: &MapFrame) -> Result<(), WriteRefusal>
    ensures ok { OnOk result (HasFewParts (Some FrameGroup.Full) frame.now × (writer.new ≡ writer.old ++ parts_text (Some FrameGroup.Full) frame.now)) }
    ensures long { result ≡ Err WriteRefusal.TooLong → HasFewParts (Some FrameGroup.Full) frame.now → ⊥ }
{
    writer.put_u2(frame.delta)?;
    put_counted_types(writer, frame.locals.as_slice())?;
    put_counted_types(writer, frame.stack.as_slice())
}

/// Writes what a frame of a group has behind its kind.
fn put_parts(
    writer: &mut Writer,
    group: Option<FrameGroup>,
    frame: &MapFrame,
) -> Result<(), WriteRefusal>
    ensures ok { OnOk result (HasFewParts group frame.now × (writer.new ≡ writer.old ++ parts_text group frame.now)) }
    ensures long { result ≡ Err WriteRefusal.TooLong → HasFewParts group frame.now → ⊥ }
{
    match group {
        Some(FrameGroup::SameOne) => put_types(writer, frame.stack.as_slice())?,
        Some(FrameGroup::SameOneExtended) => {
            put_extended(writer, frame.delta, frame.stack.as_slice())?
        }
        Some(FrameGroup::Chop) => writer.put_u2(frame.delta)?,
        Some(FrameGroup::SameExtended) => writer.put_u2(frame.delta)?,
        Some(FrameGroup::Append) => put_extended(writer, frame.delta, frame.locals.as_slice())?,
        Some(FrameGroup::Full) => put_full(writer, frame)?,
        Some(FrameGroup::Same) => {}
        None => {}
    }
    Ok(())
}

/// Writes a frame (JVMS 4.7.4).
fn put_frame(writer: &mut Writer, frame: &MapFrame) -> Result<(), WriteRefusal>
    ensures ok { OnOk result (HasFewTypes frame.now × (writer.new ≡ writer.old ++ frame_text frame.now)) }
    ensures long { result ≡ Err WriteRefusal.TooLong → HasFewTypes frame.now → ⊥ }
{
    writer.put_u1(frame.kind)?;
    put_parts(writer, group_of(frame.kind), frame)
}

/// Writes frames one after the other.
fn put_frames(writer: &mut Writer, frames: &[MapFrame]) -> Result<(), WriteRefusal>
    ensures ok { OnOk result (AllByRecursion HasFewTypes frames.now × (writer.new ≡ writer.old ++ flat_map frame_text frames.now)) }
    ensures long { result ≡ Err WriteRefusal.TooLong → AllByRecursion HasFewTypes frames.now → ⊥ }
{
    for frame in frames {
        put_frame(writer, frame)?;
    }
    Ok(())
}

/// Writes the content of a `StackMapTable`.
fn put_maps(writer: &mut Writer, frames: &[MapFrame]) -> Result<(), WriteRefusal>
    ensures ok { OnOk result (AreFewFrames frames.now × (writer.new ≡ writer.old ++ frames_text frames.now)) }
    ensures long { result ≡ Err WriteRefusal.TooLong → AreFewFrames frames.now → ⊥ }
{
    put_count(writer, frames.len())?;
    put_frames(writer, frames)
}

/// Writes the index of a name, and a content behind its length. One of more than 2^32 - 1 bytes is
/// refused.
fn put_content(writer: &mut Writer, name: u16, content: &[u8]) -> Result<(), WriteRefusal>
    ensures ok { OnOk result ((length content.now < 2 ^ 32) × (writer.new ≡ writer.old ++ (u2 name ++ u4 (length content.now) ++ content.now))) }
    ensures long { result ≡ Err WriteRefusal.TooLong → length content.now < 2 ^ 32 → ⊥ }
{
    if content.len() > 0xffff_ffff {
        return Err(WriteRefusal::TooLong);
    }
    writer.put_u2(name)?;
    writer.put_u4(content.len() as u32)?;
    writer.bytes(content)?;
    Ok(())
}

/// The content of an attribute of a `Code`.
fn inner_content(alloc: Global, body: &AttrBody<NoCode>) -> Result<Vec<u8>, WriteRefusal>
    ensures ok { IfOk result (λ content. HasFewWith IsNoCode body.now × (content.items ≡ body_text no_code_text body.now)) }
    ensures long { result ≡ Err WriteRefusal.TooLong → HasFewWith IsNoCode body.now → ⊥ }
{
    let mut writer = Writer::new(alloc);
    match body {
        AttrBody::Code(code) => match *code {},
        AttrBody::Maps(frames) => put_maps(&mut writer, frames.as_slice())?,
        AttrBody::Raw(bytes) => writer.bytes(bytes.as_slice())?,
    }
    Ok(writer.done())
}

/// Writes an attribute of a `Code`.
fn put_inner(alloc: Global, writer: &mut Writer, attr: &Attr<NoCode>) -> Result<(), WriteRefusal>
    ensures ok { OnOk result ((IsInnerFew attr.now × IsInnerShort attr.now) × (writer.new ≡ writer.old ++ inner_text attr.now)) }
    ensures long { result ≡ Err WriteRefusal.TooLong → IsInnerFew attr.now × IsInnerShort attr.now → ⊥ }
{
    let content = inner_content(alloc, &attr.body)?;
    put_content(writer, attr.name, content.as_slice())
}

/// Writes attributes of a `Code` one after the other.
fn put_inners(
    alloc: Global,
    writer: &mut Writer,
    attrs: &[Attr<NoCode>],
) -> Result<(), WriteRefusal>
    ensures ok { OnOk result (AllByRecursion (λ a. IsInnerFew a × IsInnerShort a) attrs.now × (writer.new ≡ writer.old ++ flat_map inner_text attrs.now)) }
    ensures long { result ≡ Err WriteRefusal.TooLong → AllByRecursion (λ a. IsInnerFew a × IsInnerShort a) attrs.now → ⊥ }
{
    for attr in attrs {
        put_inner(alloc, writer, attr)?;
    }
    Ok(())
}

/// Writes a handler (JVMS 4.7.3).
fn put_handler(writer: &mut Writer, handler: RawHandler) -> Result<(), AllocError>
    ensures { OnOk result (writer.new ≡ writer.old ++ handler_text handler) }
{
    writer.put_u2(handler.start)?;
    writer.put_u2(handler.end)?;
    writer.put_u2(handler.target)?;
    writer.put_u2(handler.catch)
}

/// Writes handlers one after the other.
fn put_handlers(writer: &mut Writer, handlers: &[RawHandler]) -> Result<(), AllocError>
    ensures { OnOk result (writer.new ≡ writer.old ++ flat_map handler_text handlers.now) }
{
    for handler in handlers {
        put_handler(writer, *handler)?;
    }
    Ok(())
}

/// Writes the bytes of a code behind their length. More than 65535 are refused.
fn put_code_bytes(writer: &mut Writer, code: &[u8]) -> Result<(), WriteRefusal>
    ensures ok { OnOk result ((length code.now < 2 ^ 16) × (writer.new ≡ writer.old ++ (u4 (length code.now) ++ code.now))) }
    ensures long { result ≡ Err WriteRefusal.TooLong → length code.now < 2 ^ 16 → ⊥ }
{
    if code.len() > 65535 {
        return Err(WriteRefusal::TooLong);
    }
    writer.put_u4(code.len() as u32)?;
    writer.bytes(code)?;
    Ok(())
}

/// Writes the content of a `Code` (JVMS 4.7.3).
fn put_code(alloc: Global, writer: &mut Writer, code: &CodeAttr) -> Result<(), WriteRefusal>
    ensures ok { OnOk result (IsFewCode code.now × IsShortCode code.now × (writer.new ≡ writer.old ++ code_text code.now)) }
    ensures long { result ≡ Err WriteRefusal.TooLong → IsFewCode code.now → IsShortCode code.now → ⊥ }
{
    writer.put_u2(code.max_stack)?;
    writer.put_u2(code.max_locals)?;
    put_code_bytes(writer, code.code.as_slice())?;
    put_count(writer, code.handlers.len())?;
    put_handlers(writer, code.handlers.as_slice())?;
    put_count(writer, code.attrs.len())?;
    put_inners(alloc, writer, code.attrs.as_slice())
}

/// The content of an attribute.
fn content_of(alloc: Global, body: &AttrBody) -> Result<Vec<u8>, WriteRefusal>
    ensures ok { IfOk result (λ content. HasFewWith IsFewCode body.now × IsShortWith IsShortCode body.now × (content.items ≡ body_text code_text body.now)) }
    ensures long { result ≡ Err WriteRefusal.TooLong → HasFewWith IsFewCode body.now → IsShortWith IsShortCode body.now → ⊥ }
{
    let mut writer = Writer::new(alloc);
    match body {
        AttrBody::Code(code) => put_code(alloc, &mut writer, code)?,
        AttrBody::Maps(frames) => put_maps(&mut writer, frames.as_slice())?,
        AttrBody::Raw(bytes) => writer.bytes(bytes.as_slice())?,
    }
    Ok(writer.done())
}

/// Writes an attribute (JVMS 4.7). It is refused `TooLong` exactly where a count in it doesn't fit two
/// bytes, which `has_few` tells beforehand, or a code has more than 65535 bytes or an attribute more than
/// 2^32 - 1. After a refusal a front of the attribute may be written.
pub fn put_attr(alloc: Global, writer: &mut Writer, attr: &Attr) -> Result<(), WriteRefusal>
    ensures ok { OnOk result (HasFew attr.now × IsShort attr.now × (writer.new ≡ writer.old ++ attr_text attr.now)) }
    ensures long { result ≡ Err WriteRefusal.TooLong → HasFew attr.now → IsShort attr.now → ⊥ }
{
    let content = content_of(alloc, &attr.body)?;
    put_content(writer, attr.name, content.as_slice())
}
