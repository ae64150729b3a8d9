//! Codes that are encoded again.

ghost use Rattle.std.specs.Prelude.{◌≡◌, ◌≤◌, ℕ, IsTrue, false, length, IfOk};
ghost use Rattle.std.specs.List.{AllByRecursion};
ghost use Rattle.jv_types.specs.declared.instruction.Insn.{Insn as Insns};
ghost use Rattle.jv_pool.specs.PoolText.{is_hole};
ghost use Rattle.jv_insn.specs.Entries.{Grows};
ghost use Rattle.jv_insn.specs.Encoding.{IsSpelled, is_left_out, StandsNear};

use crate::decoding::{CODES, OPCODES, code_of};
use crate::pools::pool;
use jv_insn::{EncodeRefusal, decode, encode};
use jv_pool::{Pool, PoolItem, PoolWriter};
use jv_types::{Arg, Body, Const, Copied, Insn, Seq};
use std::alloc::Global;
use std::test::Fail;
use tests_text::{hex, word};

/// Whether each part of the operands is there.
fn is_whole(arg: &Arg) -> bool
    ensures { IsTrue result → is_left_out arg.now ≡ false }
{
    !matches!(
        arg,
        Arg::Dynamic | Arg::Constant(Const::Text | Const::Handle | Const::MethodKind)
    )
}

/// Whether an instruction isn't an ldc, whose constant would have to stand near in the pool.
fn is_near(insn: &Insn, pool: &mut PoolWriter) -> Result<bool, EncodeRefusal>
    ensures near { IfOk result (λ near. IsTrue near → StandsNear pool.new insn.now) }
    ensures grown { Grows pool.old pool.new }
{
    if insn.op != 18 {
        return Ok(true);
    }
    Ok(false)
}

/// Whether a body may be encoded over a pool.
fn may_encode(body: &Body, pool: &mut PoolWriter) -> Result<bool, EncodeRefusal>
    ensures { IfOk result (λ may. IsTrue may → AllByRecursion (λ (row : ℕ × Insns). (is_left_out row.1.arg ≡ false) × StandsNear pool.new row.1) body.now.insns) }
{
    for row in body.insns.as_slice() {
        if !is_near(&row.1, pool)? || !is_whole(&row.1.arg) {
            return Ok(false);
        }
    }
    Ok(true)
}

/// The code of a body, where it may be encoded over a pool.
fn encoded(
    alloc: Global,
    body: &Body,
    pool: &mut PoolWriter,
) -> Result<Option<Vec<u8>>, EncodeRefusal>
    requires { IsSpelled body.now }
{
    if !may_encode(body, pool)? {
        return Ok(None);
    }
    Ok(Some(encode(alloc, body, pool)?))
}

/// The code as which a code without handlers is encoded, once it is decoded over a pool of these items.
fn encoded_again(
    alloc: Global,
    code: &[u8],
    items: &Pool,
    pool: &mut PoolWriter,
    max_locals: u16,
) -> Result<Vec<u8>, Fail>
    requires { length code.now ≤ 65535 }
{
    let body = decode(alloc, code, items, [].as_slice(), 9, max_locals)?;
    let code = encoded(alloc, &body, pool)?;
    Ok(code.ok_or("a body that may be encoded")?)
}

/// Whether an item is the second index of a long or double.
fn is_hole(item: &PoolItem) -> bool
    ensures { result ≡ is_hole item.now }
{
    matches!(item, PoolItem::Hole)
}

/// A writer of a pool with these items.
fn writer_of(alloc: Global, pool: &Pool) -> Result<PoolWriter, Fail> {
    let mut writer = PoolWriter::new(alloc);
    for item in pool.items() {
        let copied = item.copy()?;
        if !is_hole(&copied) {
            writer.add(copied)?;
        }
    }
    Ok(writer)
}

#[test]
fn encodes_each_opcode(rt: HostRuntime) -> Result<(), Fail> {
    let alloc = rt.alloc();
    let pool = pool(alloc)?;
    for line in OPCODES.lines() {
        for op in word(line, 0).parse::<u8>()?..=word(line, 1).parse::<u8>()? {
            let code = code_of(alloc, op, word(line, 2))?;
            let mut writer = writer_of(alloc, &pool)?;
            assert!(rt; code.len() <= 65535);
            // an ldc needs a constant that stands near, and an invokedynamic is not encoded
            if op != 18 && op != 186 {
                let again = encoded_again(alloc, &code, &pool, &mut writer, 4)?;
                assert_eq!(rt; again.as_slice(), code.as_slice(), "at {op}");
            }
        }
    }
    Ok(())
}

#[test]
fn encodes_codes(rt: HostRuntime) -> Result<(), Fail> {
    let alloc = rt.alloc();
    let pool = pool(alloc)?;
    for line in CODES.lines() {
        let max_locals = word(line, 1).parse::<u16>()?;
        let code = hex(alloc, word(line, 2))?;
        let mut writer = PoolWriter::new(alloc);
        assert!(rt; code.len() <= 65535);
        let again = encoded_again(alloc, &code, &pool, &mut writer, max_locals)?;
        assert_eq!(rt; again.as_slice(), hex(alloc, word(line, 3))?.as_slice());
    }
    Ok(())
}

// A getstatic of a field of which the class is there, and room for one item; then a new of that class.
#[test]
fn refuses_a_full_pool(rt: HostRuntime) -> Result<(), Fail> {
    let alloc = rt.alloc();
    let items = pool(alloc)?;
    let mut writer = PoolWriter::new(alloc);
    for number in 0..65531 {
        writer.add(PoolItem::Integer(number))?;
    }
    writer.add(PoolItem::Utf8(Seq::from_vec(hex(alloc, "41")?)))?;
    writer.add(PoolItem::Class(65532))?;
    let body = decode(alloc, [0xb2, 0, 6].as_slice(), &items, [].as_slice(), 1, 0)?;
    let refused = encoded(alloc, &body, &mut writer).err();
    assert!(rt; refused == Some(EncodeRefusal::PoolFull));
    let class = decode(alloc, [0xbb, 0, 2].as_slice(), &items, [].as_slice(), 1, 0)?;
    let again = encoded(alloc, &class, &mut writer)?.ok_or("a code")?;
    assert_eq!(rt; again.as_slice(), [0xbb, 0xff, 0xfd].as_slice());
    assert_eq!(rt; writer.done().items().len(), 65534);
    Ok(())
}
