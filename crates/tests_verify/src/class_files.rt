//! The bytes of class files with one method (JVMS 4.1), of texts.

use jv_bytes::Writer;
use std::alloc::Global;
use std::test::Fail;
use tests_shapes::member_of;
use tests_text::{hex, word};

/// The items of a pool, from index 1 on: of an item its tag, and then its text, or its indices.
const ITEMS: &str = "\
    1:Code 1:StackMapTable \
    1:java/lang/Object 7:3 \
    1:java/lang/String 7:5 \
    1:java/lang/Throwable 7:7 \
    1:app/S 7:9 \
    1:<init> 1:()V 12:11:12 10:4:13 \
    1:java/lang/Exception 7:15";

/// How many items the pool has with the name and the descriptor of the method behind these, and one more.
const POOL_COUNT: u16 = 19;

/// The index of the name of the method.
const METHOD_NAME: u16 = 17;

/// The index of the descriptor of the method.
const METHOD_DESC: u16 = 18;

/// Puts a text of the pool.
fn put_text(writer: &mut Writer, text: &str) -> Result<(), Fail> {
    writer.put_u1(1)?;
    writer.put_u2(u16::try_from(text.len())?)?;
    writer.bytes(text.as_bytes())?;
    Ok(())
}

/// Puts an item of the pool that has indices.
fn put_indices(writer: &mut Writer, tag: &str, indices: &str) -> Result<(), Fail> {
    writer.put_u1(tag.parse::<u8>()?)?;
    for index in indices.split(':') {
        writer.put_u2(index.parse::<u16>()?)?;
    }
    Ok(())
}

/// Puts an item of the pool.
fn put_item(writer: &mut Writer, text: &str) -> Result<(), Fail> {
    let (tag, rest) = text.split_once(':').unwrap_or((text, ""));
    if tag == "1" {
        put_text(writer, rest)
    } else {
        put_indices(writer, tag, rest)
    }
}

/// Puts the pool, with the name and the descriptor of the method.
fn put_pool(writer: &mut Writer, name: &str, desc: &str) -> Result<(), Fail> {
    writer.put_u2(POOL_COUNT)?;
    for item in ITEMS.split(' ') {
        put_item(writer, item)?;
    }
    put_text(writer, name)?;
    put_text(writer, desc)
}

/// Puts what stands before the members: a public class, Object or below it.
fn put_front(writer: &mut Writer, class: &str, name: &str, desc: &str) -> Result<(), Fail> {
    let (this_class, super_class) = if class == "app/S" { (10, 4) } else { (4, 0) };
    writer.put_u4(0xcafe_babe)?;
    writer.put_u4(52)?;
    put_pool(writer, name, desc)?;
    for number in [0x21, this_class, super_class, 0, 0] {
        writer.put_u2(number)?;
    }
    Ok(())
}

/// Puts the head of the one method, which is static unless it is a constructor, up to the bytes of its `Code`.
fn put_method(writer: &mut Writer, name: &str, length: u32) -> Result<(), Fail> {
    let access = if name == "<init>" { 1 } else { 9 };
    for number in [1, access, METHOD_NAME, METHOD_DESC, 1, 1] {
        writer.put_u2(number)?;
    }
    writer.put_u4(length)?;
    Ok(())
}

/// Puts the numbers of a `Code`, its code and its handlers.
fn put_code(writer: &mut Writer, text: &str, code: &[u8], handlers: &[u8]) -> Result<(), Fail> {
    writer.put_u2(word(text, 0).parse::<u16>()?)?;
    writer.put_u2(word(text, 1).parse::<u16>()?)?;
    writer.put_u4(u32::try_from(code.len())?)?;
    writer.bytes(code)?;
    writer.put_u2(u16::try_from(handlers.len() / 8)?)?;
    writer.bytes(handlers)?;
    Ok(())
}

/// Puts the one attribute of a `Code`, a stack map of so many frames.
fn put_map(writer: &mut Writer, count: &str, frames: &[u8]) -> Result<(), Fail> {
    let length = u32::try_from(frames.len())?;
    writer.put_u2(1)?;
    writer.put_u2(2)?;
    writer.put_u4(length.saturating_add(2))?;
    writer.put_u2(count.parse::<u16>()?)?;
    writer.bytes(frames)?;
    Ok(())
}

/// The bytes of a `Code` of a text: how many words the stack and the local variables may have, the code, its
/// handlers, how many frames its stack map has, and these.
fn code_text(alloc: Global, text: &str) -> Result<Vec<u8>, Fail> {
    let mut writer = Writer::new(alloc);
    let code = hex(alloc, word(text, 2))?;
    let handlers = hex(alloc, word(text, 3))?;
    put_code(&mut writer, text, &code, &handlers)?;
    put_map(&mut writer, word(text, 4), &hex(alloc, word(text, 5))?)?;
    Ok(writer.done())
}

/// The bytes of a class file of the one method of a text such as `app/S.run:(I)V`, with the `Code` of another.
pub fn file_of(alloc: Global, method: &str, text: &str) -> Result<Vec<u8>, Fail> {
    let (class, member) = method.split_once('.').unwrap_or((method, ""));
    let (name, desc) = member_of(member);
    let code = code_text(alloc, text)?;
    let mut writer = Writer::new(alloc);
    put_front(&mut writer, class, name, desc)?;
    put_method(&mut writer, name, u32::try_from(code.len())?)?;
    writer.bytes(&code)?;
    writer.put_u2(0)?;
    Ok(writer.done())
}
