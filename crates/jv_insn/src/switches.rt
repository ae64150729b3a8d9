ghost use Rattle.std.specs.Prelude.{◌≡◌};
ghost use Rattle.jv_read.specs.Reading.{Gives};
ghost use Rattle.jv_insn.specs.Layouts.{padding_at};
ghost use Rattle.jv_insn.specs.Steps.Reading.{s4_at, count_at, pair_at, span_of, table_at, lookup_at};

use crate::written::Operands;
use jv_bytes::Cursor;
use jv_read::{Part, ReadFault, read_bytes, read_many, read_u4};
use jv_types::Seq;
use std::alloc::Global;

/// How many bytes stand before the numbers of a switch, whose operands begin at this offset.
pub fn padding_at(at: usize) -> usize
    ensures { result ≡ padding_at at }
{
    (4 - at % 4) % 4
}

/// How many values there are from a low one to a high one. There are none where the low one is above.
#[tactic(auto, unfolding(crate::specs::Steps::Reading::span_of))]
fn span_of(low: i32, high: i32) -> Option<u64>
    ensures { result ≡ span_of low high }
{
    if low <= high {
        Some(u64::from(low.abs_diff(high)) + 1)
    } else {
        None
    }
}

/// The signed number in the next four bytes.
#[tactic(auto, unfolding(crate::specs::Steps::Reading::s4_at))]
fn read_s4(cursor: &mut Cursor) -> Result<i32, ReadFault>
    ensures { Gives (λ x. x) result cursor.new (s4_at cursor.old) }
{
    Ok(read_u4(cursor)?.cast_signed())
}

/// The number in the next four bytes, where a signed number that is read there isn't negative.
#[tactic(auto, unfolding(crate::specs::Steps::Reading::count_at))]
fn read_count(cursor: &mut Cursor) -> Result<u32, ReadFault>
    ensures { Gives (λ x. x) result cursor.new (count_at cursor.old) }
{
    let count = read_u4(cursor)?;
    if count < 0x8000_0000 {
        Ok(count)
    } else {
        Err(ReadFault::Bad)
    }
}

/// A value of a lookupswitch and its offset.
#[tactic(auto, unfolding(crate::specs::Steps::Reading::pair_at))]
fn read_pair(cursor: &mut Cursor) -> Result<(i32, i32), ReadFault>
    ensures { Gives (λ x. x) result cursor.new (pair_at cursor.old) }
{
    let value = read_s4(cursor)?;
    let offset = read_s4(cursor)?;
    Ok((value, offset))
}

/// The offsets of a tableswitch, read one by one.
#[derive(Clone, Copy)]
struct OffsetPart;

impl Part for OffsetPart {
    type Item = i32;

    ghost part_at = { λ p bytes. s4_at bytes };

    fn read(&self, cursor: &mut Cursor) -> Result<i32, ReadFault> {
        read_s4(cursor)
    }
}

/// The cases of a lookupswitch, read one by one.
#[derive(Clone, Copy)]
struct CasePart;

impl Part for CasePart {
    type Item = (i32, i32);

    ghost part_at = { λ p bytes. pair_at bytes };

    fn read(&self, cursor: &mut Cursor) -> Result<(i32, i32), ReadFault> {
        read_pair(cursor)
    }
}

/// The operands of a tableswitch that begin at an offset of the code (JVMS 6.5).
#[tactic(auto, unfolding(crate::specs::Steps::Reading::table_at))]
pub fn read_table(alloc: Global, cursor: &mut Cursor, at: usize) -> Result<Operands, ReadFault>
    ensures { Gives (λ x. x) result cursor.new (table_at at cursor.old) }
{
    let _padding = read_bytes(cursor, padding_at(at))?;
    let default = read_s4(cursor)?;
    let low = read_s4(cursor)?;
    let high = read_s4(cursor)?;
    let Some(count) = span_of(low, high) else {
        return Err(ReadFault::Bad);
    };
    let offsets = read_many(alloc, cursor, &OffsetPart, count)?;
    Ok(Operands::Table {
        default,
        low,
        offsets: Seq::from_vec(offsets),
    })
}

/// The operands of a lookupswitch that begin at an offset of the code (JVMS 6.5).
#[tactic(auto, unfolding(crate::specs::Steps::Reading::lookup_at))]
pub fn read_lookup(alloc: Global, cursor: &mut Cursor, at: usize) -> Result<Operands, ReadFault>
    ensures { Gives (λ x. x) result cursor.new (lookup_at at cursor.old) }
{
    let _padding = read_bytes(cursor, padding_at(at))?;
    let default = read_s4(cursor)?;
    let count = read_count(cursor)?;
    let cases = read_many(alloc, cursor, &CasePart, u64::from(count))?;
    Ok(Operands::Lookup {
        default,
        cases: Seq::from_vec(cases),
    })
}
