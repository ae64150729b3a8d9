//! A constant pool with each item that an instruction may name.

use jv_bytes::Cursor;
use jv_pool::{Pool, read_pool};
use std::alloc::Global;
use std::test::Fail;
use tests_text::hex;

/// The texts `A` at 1, `f` at 3, `I` at 4, `(J)V` at 7 and `[[I` at 14; the class `A` at 2; the field `A.f` of
/// type `I` at 6; the method `A.f(J)V` of a class at 9, and of an interface at 10; the int -1 at 11, the double of
/// bits 7 at 12, the class of `[[I` at 15, and a dynamic call site at 16.
const POOL: &str =
    "00110100014107000101000166010001490c000300040900020005010004284a29560c000300070a\
000200080b0002000803ffffffff0600000000000000070100035b5b4907000e1200000008";

/// The pool.
pub fn pool(alloc: Global) -> Result<Pool, Fail> {
    let bytes = hex(alloc, POOL)?;
    Ok(read_pool(alloc, &mut Cursor::new(&bytes))?)
}
