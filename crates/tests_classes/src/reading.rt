//! Readers of parts, one after the other.

ghost use Rattle.jv_read.specs.Reading.{u2_at};

use jv_bytes::Cursor;
use jv_read::{Part, ReadFault, read_bytes, read_counted, read_many, read_u1, read_u2, read_u4};
use std::alloc::Global;
use std::test::Fail;
use tests_text::hex;

/// A part of two bytes.
struct Pair;

impl Part for Pair {
    type Item = u16;

    ghost part_at = { λ _. u2_at };

    fn read(&self, cursor: &mut Cursor) -> Result<u16, ReadFault> {
        read_u2(cursor)
    }
}

/// Whether numbers of one, two and four bytes are read, and three bytes behind them.
fn reads_numbers(alloc: Global) -> Result<bool, Fail> {
    let bytes = hex(alloc, "0102030405060708090a")?;
    let mut cursor = Cursor::new(&bytes);
    let numbers = (
        read_u1(&mut cursor)?,
        read_u2(&mut cursor)?,
        read_u4(&mut cursor)?,
    );
    let rest = read_bytes(&mut cursor, 3)?;
    Ok(numbers == (1, 0x203, 0x4050607) && rest == [8, 9, 10].as_slice())
}

/// Whether a number of four bytes isn't read of three, which are left then.
fn refuses_numbers(alloc: Global) -> Result<bool, Fail> {
    let bytes = hex(alloc, "010203")?;
    let mut cursor = Cursor::new(&bytes);
    Ok(read_u4(&mut cursor).err() == Some(ReadFault::Bad))
}

#[test]
fn reads_each_width(rt: HostRuntime) -> Result<(), Fail> {
    assert!(rt; reads_numbers(rt.alloc())?);
    assert!(rt; refuses_numbers(rt.alloc())?);
    Ok(())
}

/// Whether two parts are read, and one is left.
fn reads_two(alloc: Global) -> Result<bool, Fail> {
    let bytes = hex(alloc, "000100020003")?;
    let mut cursor = Cursor::new(&bytes);
    let parts = read_many(alloc, &mut cursor, &Pair, 2)?;
    Ok(parts.as_slice() == [1, 2].as_slice() && cursor.left() == 2)
}

/// Whether as many parts are read as their count says.
fn reads_counted(alloc: Global) -> Result<bool, Fail> {
    let bytes = hex(alloc, "000200010002ff")?;
    let mut cursor = Cursor::new(&bytes);
    let parts = read_counted(alloc, &mut cursor, &Pair)?;
    Ok(parts.as_slice() == [1, 2].as_slice() && cursor.left() == 1)
}

/// Whether parts are refused where the last one is cut.
fn refuses_cut(alloc: Global) -> Result<bool, Fail> {
    let bytes = hex(alloc, "0002000100")?;
    Ok(read_counted(alloc, &mut Cursor::new(&bytes), &Pair).err() == Some(ReadFault::Bad))
}

#[test]
fn reads_parts(rt: HostRuntime) -> Result<(), Fail> {
    assert!(rt; reads_two(rt.alloc())?);
    assert!(rt; reads_counted(rt.alloc())?);
    assert!(rt; refuses_cut(rt.alloc())?);
    Ok(())
}
