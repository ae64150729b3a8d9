ghost use Rattle.std.specs.Prelude.{◌≡◌, ◌<◌, ◌^◌, ◌++◌, ℕ, List, length, IfOk, OnOk, MatchResult};
ghost use Rattle.std.specs.List.{flat_map, AllByRecursion};
ghost use Rattle.jv_attr.specs.AttrText.{HasFew, IsShort, attr_text};
ghost use Rattle.jv_class.specs.ClassTexts.{counted_text, member_text, class_text, IsClass, IsFewMember, HasFewItems, HasFewParts, HasShortParts, ClassText};
ghost use Rattle.jv_class.specs.Writing.{IsWritten};
ghost use Rattle.jv_class.specs.Steps.PartWriting.{IsShortMember, AttrFits, names_text, start_text};
ghost use Rattle.jv_pool.specs.PoolText.{u2, IsShort as IsShortItem};

use crate::class_file::{ClassFile, Member};
use crate::counts::{has_few_items, has_few_parts};
use crate::fault::WriteRefusal;
use crate::layout::MAGIC;
use jv_attr::{Attr, put_attr};
use jv_bytes::Writer;
use jv_pool::{WriteRefusal as PartRefusal, put_pool};
use std::alloc::{AllocError, Global};

/// Writes numbers of two bytes one after the other.
fn put_each_index(writer: &mut Writer, indices: &[u16]) -> Result<(), AllocError>
    ensures { OnOk result (writer.new ≡ writer.old ++ flat_map u2 indices.now) }
{
    for index in indices {
        writer.put_u2(*index)?;
    }
    Ok(())
}

/// Writes a count, and as many numbers of two bytes.
fn put_indices(writer: &mut Writer, indices: &[u16]) -> Result<(), AllocError>
    requires { length indices.now < 2 ^ 16 }
    ensures { OnOk result (writer.new ≡ writer.old ++ counted_text u2 indices.now) }
{
    writer.put_u2(indices.len() as u16)?;
    put_each_index(writer, indices)
}

/// Writes attributes one after the other.
fn put_each_attr(alloc: Global, writer: &mut Writer, attrs: &[Attr]) -> Result<(), PartRefusal>
    ensures ok { OnOk result (AllByRecursion AttrFits attrs.now × (writer.new ≡ writer.old ++ flat_map attr_text attrs.now)) }
    ensures long { result ≡ Err PartRefusal.TooLong → AllByRecursion AttrFits attrs.now → ⊥ }
{
    for attr in attrs {
        put_attr(alloc, writer, attr)?;
    }
    Ok(())
}

/// Writes a count, and as many attributes (JVMS 4.7). It is refused exactly where one is too long.
fn put_attrs(alloc: Global, writer: &mut Writer, attrs: &[Attr]) -> Result<(), PartRefusal>
    requires count { length attrs.now < 2 ^ 16 }
    requires each { AllByRecursion HasFew attrs.now }
    ensures ok { OnOk result (AllByRecursion IsShort attrs.now × (writer.new ≡ writer.old ++ counted_text attr_text attrs.now)) }
    ensures long { result ≡ Err PartRefusal.TooLong → AllByRecursion IsShort attrs.now → ⊥ }
{
    writer.put_u2(attrs.len() as u16)?;
    put_each_attr(alloc, writer, attrs)
}

/// Writes a field (JVMS 4.5) or a method (JVMS 4.6).
fn put_member(alloc: Global, writer: &mut Writer, member: &Member) -> Result<(), PartRefusal>
    requires { IsFewMember member.now }
    ensures ok { OnOk result (IsShortMember member.now × (writer.new ≡ writer.old ++ member_text member.now)) }
    ensures long { result ≡ Err PartRefusal.TooLong → IsShortMember member.now → ⊥ }
{
    writer.put_u2(member.access)?;
    writer.put_u2(member.name)?;
    writer.put_u2(member.desc)?;
    put_attrs(alloc, writer, member.attrs.as_slice())
}

/// Writes fields or methods one after the other.
fn put_each_member(
    alloc: Global,
    writer: &mut Writer,
    members: &[Member],
) -> Result<(), PartRefusal>
    requires { AllByRecursion IsFewMember members.now }
    ensures ok { OnOk result (AllByRecursion IsShortMember members.now × (writer.new ≡ writer.old ++ flat_map member_text members.now)) }
    ensures long { result ≡ Err PartRefusal.TooLong → AllByRecursion IsShortMember members.now → ⊥ }
{
    for member in members {
        put_member(alloc, writer, member)?;
    }
    Ok(())
}

/// Writes a count, and as many fields or methods (JVMS 4.1).
fn put_members(alloc: Global, writer: &mut Writer, members: &[Member]) -> Result<(), PartRefusal>
    requires count { length members.now < 2 ^ 16 }
    requires each { AllByRecursion IsFewMember members.now }
    ensures ok { OnOk result (AllByRecursion IsShortMember members.now × (writer.new ≡ writer.old ++ counted_text member_text members.now)) }
    ensures long { result ≡ Err PartRefusal.TooLong → AllByRecursion IsShortMember members.now → ⊥ }
{
    writer.put_u2(members.len() as u16)?;
    put_each_member(alloc, writer, members)
}

/// Writes the magic number, the versions and the pool.
fn put_opening(writer: &mut Writer, class: &ClassFile) -> Result<(), PartRefusal>
    requires { HasFewItems class.now }
    ensures ok { OnOk result (AllByRecursion IsShortItem class.now.pool × (writer.new ≡ writer.old ++ start_text class.now)) }
    ensures long { result ≡ Err PartRefusal.TooLong → AllByRecursion IsShortItem class.now.pool → ⊥ }
{
    writer.put_u4(MAGIC)?;
    writer.put_u2(class.minor)?;
    writer.put_u2(class.major)?;
    put_pool(writer, &class.pool)
}

/// Writes the access flags, the class, its superclass and its interfaces.
fn put_names(writer: &mut Writer, class: &ClassFile) -> Result<(), AllocError>
    requires { length class.now.interfaces < 2 ^ 16 }
    ensures { OnOk result (writer.new ≡ writer.old ++ names_text class.now) }
{
    writer.put_u2(class.access)?;
    writer.put_u2(class.this_class)?;
    writer.put_u2(class.super_class)?;
    put_indices(writer, class.interfaces.as_slice())
}

/// Writes a class whose counts fit their bytes.
fn put_class(alloc: Global, writer: &mut Writer, class: &ClassFile) -> Result<(), PartRefusal>
    requires items { HasFewItems class.now }
    requires parts { HasFewParts class.now }
    ensures ok { OnOk result (HasShortParts class.now × (writer.new ≡ writer.old ++ class_text class.now)) }
    ensures long { result ≡ Err PartRefusal.TooLong → HasShortParts class.now → ⊥ }
{
    put_opening(writer, class)?;
    put_names(writer, class)?;
    put_members(alloc, writer, class.fields.as_slice())?;
    put_members(alloc, writer, class.methods.as_slice())?;
    put_attrs(alloc, writer, class.attrs.as_slice())
}

/// Writes a class file (JVMS 4.1): the one text of a class. It is refused `PoolFull` exactly where the
/// greatest index of the pool passes 65534, else `TooMany` exactly where another list whose count has two
/// bytes has more than 65535 entries, and else `TooLong` exactly where a text of the pool or a code has
/// more than 65535 bytes or an attribute more than 2^32 - 1. What was read is written as it was, unless
/// memory is wanting.
pub fn write_class(alloc: Global, class: &ClassFile) -> Result<Vec<u8>, WriteRefusal>
    ensures written { IfOk result (λ bytes. IsWritten class.now bytes.items) }
    ensures text { IfOk result (λ bytes. IsClass class.now → ClassText class.now bytes.items) }
    ensures again { (read : List ℕ) → ClassText class.now read →
        MatchResult result (λ bytes. bytes.items ≡ read) (λ refusal. refusal ≡ WriteRefusal.Memory) }
    ensures full { result ≡ Err WriteRefusal.PoolFull → HasFewItems class.now → ⊥ }
    ensures many { result ≡ Err WriteRefusal.TooMany → HasFewItems class.now × (HasFewParts class.now → ⊥) }
    ensures long { result ≡ Err WriteRefusal.TooLong →
        HasFewItems class.now × HasFewParts class.now × (HasShortParts class.now → ⊥) }
{
    if !has_few_items(class) {
        return Err(WriteRefusal::PoolFull);
    }
    if !has_few_parts(class) {
        return Err(WriteRefusal::TooMany);
    }
    let mut writer = Writer::new(alloc);
    match put_class(alloc, &mut writer, class) {
        Ok(()) => Ok(writer.done()),
        Err(PartRefusal::TooLong) => Err(WriteRefusal::TooLong),
        Err(PartRefusal::Memory) => Err(WriteRefusal::Memory),
    }
}
