//! What the indices of a pool name (JVMS 4.4.1, 4.4.2).

use jv_bytes::Cursor;
use jv_names::{class_at, field_at, method_at, type_at, type_text};
use jv_pool::{Pool, PoolItem, read_pool};
use jv_read::ReadFault;
use jv_types::{FieldRef, MethodRef};
use std::alloc::Global;
use std::test::Fail;
use tests_text::{hex, three_words, word};

/// The texts `A` at 1, `f` at 3, `I` at 4, `()V` at 7 and `[[I` at 14; the class `A` at 2, and that of `[[I` at 15; the
/// pairs `f I` at 5 and `f ()V` at 8. Of `A`: the field `f I` at 6, one of `f ()V` at 12, the method `f ()V` at 9, that of
/// an interface at 10, and one of `f I` at 13. Of `[[I`: the field `f I` at 16, and the method `f ()V` at 11.
const POOL: &str = "\
00110100014107000101000166010001490c00030004\
09000200050100032829560c00030007\
0a000200080b000200080a000f0008\
09000200080a000200050100035b5b4907000e09000f0005";

/// The pool.
fn pool(alloc: Global) -> Result<Pool, Fail> {
    let bytes = hex(alloc, POOL)?;
    Ok(read_pool(alloc, &mut Cursor::new(&bytes))?)
}

/// An index, the type that it names, and the class; `none` stands for neither.
const TYPES: &str = "\
0 none none
1 none none
2 A A
6 none none
15 [[I none
17 none none";

/// Whether an index names the type of this text, or none.
fn names_type(alloc: Global, pool: &Pool, index: u16, wanted: &str) -> Result<bool, Fail> {
    match type_at(alloc, pool, index) {
        Ok(of) => Ok(type_text(alloc, &of)?.as_slice() == wanted.as_bytes()),
        Err(ReadFault::Bad) => Ok(wanted == "none"),
        Err(ReadFault::Memory) => Ok(false),
    }
}

/// Whether an index names the class of this name, or none.
fn names_class(alloc: Global, pool: &Pool, index: u16, wanted: &str) -> bool {
    match class_at(alloc, pool, index) {
        Ok(name) => name.as_slice() == wanted.as_bytes(),
        Err(ReadFault::Bad) => wanted == "none",
        Err(ReadFault::Memory) => false,
    }
}

/// Whether the index of a line names its type and its class.
fn is_type_row(alloc: Global, pool: &Pool, line: &str) -> Result<bool, Fail> {
    let (index, of, class) = three_words(line);
    let index = index.parse::<u16>()?;
    Ok(names_type(alloc, pool, index, of)? && names_class(alloc, pool, index, class))
}

#[test]
fn finds_types(rt: HostRuntime) -> Result<(), Fail> {
    let pool = pool(rt.alloc())?;
    for line in TYPES.lines() {
        assert!(rt; is_type_row(rt.alloc(), &pool, line)?, "at {line}");
    }
    Ok(())
}

/// An index, and the member that it names: a field of `A`, a method of `A`, one of an interface, one of `[[I`, or none.
const MEMBERS: &str = "\
0 none
2 none
5 none
6 field
9 method
10 interface
11 array
12 none
13 none
16 none
17 none";

/// What a field is.
fn field_kind(r: &FieldRef) -> &'static str {
    if r.class.as_slice() == b"A".as_slice() && r.name.as_slice() == b"f".as_slice() {
        return "field";
    }
    "another field"
}

/// What a method is, where its class is `A` or an array.
fn method_kind(alloc: Global, r: &MethodRef) -> Result<&'static str, Fail> {
    let class = type_text(alloc, &r.class)?;
    if r.name.as_slice() != b"f".as_slice() || r.desc.result.is_some() {
        return Ok("another method");
    }
    Ok(match (class.as_slice(), r.interface) {
        (b"A", false) => "method",
        (b"A", true) => "interface",
        (b"[[I", false) => "array",
        _ => "a method of another class",
    })
}

/// What an index names as a method.
fn method_named(alloc: Global, pool: &Pool, index: u16) -> Result<&'static str, Fail> {
    match method_at(alloc, pool, index) {
        Ok(r) => method_kind(alloc, &r),
        Err(ReadFault::Bad) => Ok("none"),
        Err(ReadFault::Memory) => Ok("no memory"),
    }
}

/// What an index names as a field, and else as a method.
fn member_named(alloc: Global, pool: &Pool, index: u16) -> Result<&'static str, Fail> {
    match field_at(alloc, pool, index) {
        Ok(r) => Ok(field_kind(&r)),
        Err(ReadFault::Bad) => method_named(alloc, pool, index),
        Err(ReadFault::Memory) => Ok("no memory"),
    }
}

/// Whether the index of a line names its member.
fn is_member_row(alloc: Global, pool: &Pool, line: &str) -> Result<bool, Fail> {
    Ok(member_named(alloc, pool, word(line, 0).parse::<u16>()?)? == word(line, 1))
}

#[test]
fn finds_members(rt: HostRuntime) -> Result<(), Fail> {
    let pool = pool(rt.alloc())?;
    for line in MEMBERS.lines() {
        assert!(rt; is_member_row(rt.alloc(), &pool, line)?, "at {line}");
    }
    Ok(())
}

#[test]
fn makes_a_pool_of_items(rt: HostRuntime) -> Result<(), Fail> {
    let mut items = Vec::new(rt.alloc());
    items.push(PoolItem::Integer(7))?;
    assert_eq!(rt; Pool::from_items(items).items().len(), 1);
    Ok(())
}
