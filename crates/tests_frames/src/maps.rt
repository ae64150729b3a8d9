//! The frames of a method's stack map (JVMS 4.7.4), and those with which methods begin (4.10.1.6).

use jv_attr::{AttrBody, CodeAttr, Owner, read_attr};
use jv_bytes::{Cursor, Writer};
use jv_frames::{BadMap, frames_of, initial_frame};
use jv_insn::decode;
use jv_pool::{Pool, read_pool};
use jv_types::{Body, Frame};
use jv_world::World;
use std::alloc::Global;
use std::test::Fail;
use tests_shapes::{Asked, build, first_wrong_in, frame_of, is_frame, method_of};
use tests_text::{hex, word};

/// Object and `app/S`, each with a `main`, a constructor that takes a long, and one without parameters.
const WORLD: &str = "\
    java/lang/Object,C,,+smain:([Ljava/lang/String;)V,+.<init>:(J)V,+.<init> \
    app/S,C,,+smain:([Ljava/lang/String;)V,+.<init>:(J)V,+.<init>";

/// The method to which the maps belong.
const MAIN: &str = "app/S.main:([Ljava/lang/String;)V";

/// A pool whose second item names the array of ints, and then `StackMapTable` and `Code`.
const POOL: &str = "00050100025b4907000101000d537461636b4d61705461626c65010004436f6465";

/// The length of a code, and then iconst_0, istore_1, iinc of 1 by 1, goto that instruction: instructions at 0, 1, 2 and 5.
const LOOP: &str = "00000008033c840101a7fffd";

/// How many local variables `main` has, how many frames its StackMapTable, these, and what they say: frames, each
/// behind its offset, or the offset at which it fails.
const MAPS: &str = "\
2 1 fc000201 = 2 [Ljava/lang/String; int |
2 1 f80002 = bad 2
2 2 fa000202 = 2 top top | / 5 top top |
2 2 0200 = bad 3
2 1 fc000204 = bad 2
2 1 ff000500010800000000 = bad 5
2 1 fbffff = bad 65535
4 1 ff00050002030700020000 = 5 double [I top |
2 1 4201 = 2 [Ljava/lang/String; top | int";

/// Puts the `StackMapTable` of so many frames.
fn put_map(writer: &mut Writer, count: u16, frames: &[u8]) -> Result<(), Fail> {
    let length = u32::try_from(frames.len())?;
    writer.put_u2(3)?;
    writer.put_u4(length.saturating_add(2))?;
    writer.put_u2(count)?;
    writer.bytes(frames)?;
    Ok(())
}

/// Puts the `Code` of the loop, with so many local variables and a map of so many bytes, up to that map.
fn put_loop(writer: &mut Writer, max_locals: u16, length: u32, code: &[u8]) -> Result<(), Fail> {
    writer.put_u2(4)?;
    writer.put_u4(length.saturating_add(28))?;
    writer.put_u2(2)?;
    writer.put_u2(max_locals)?;
    writer.bytes(code)?;
    writer.put_u2(0)?;
    writer.put_u2(1)?;
    Ok(())
}

/// The `Code` of the loop, with so many local variables and a map of so many frames.
fn code_text(alloc: Global, max_locals: u16, count: u16, frames: &[u8]) -> Result<Vec<u8>, Fail> {
    let mut writer = Writer::new(alloc);
    let code = hex(alloc, LOOP)?;
    put_loop(&mut writer, max_locals, u32::try_from(frames.len())?, &code)?;
    put_map(&mut writer, count, frames)?;
    Ok(writer.done())
}

/// The bytes of a row's `Code`.
fn text_of(alloc: Global, asked: &str) -> Result<Vec<u8>, Fail> {
    let max_locals = word(asked, 0).parse::<u16>()?;
    let count = word(asked, 1).parse::<u16>()?;
    code_text(alloc, max_locals, count, &hex(alloc, word(asked, 2))?)
}

/// The `Code` of a row.
fn code_of(alloc: Global, asked: &str, pool: &Pool) -> Result<CodeAttr, Fail> {
    let text = text_of(alloc, asked)?;
    match read_attr(alloc, &mut Cursor::new(&text), pool, Owner::Method, 52)?.body {
        AttrBody::Code(code) => Ok(code),
        _ => Err(Fail::from("a code")),
    }
}

/// The body of a code.
fn body_of(alloc: Global, pool: &Pool, code: &CodeAttr) -> Result<Body, Fail> {
    let bytes = code.code.as_slice();
    if bytes.len() > 65535 {
        return Err(Fail::from("a code of at most 65535 bytes"));
    }
    Ok(decode(alloc, bytes, pool, [].as_slice(), 2, code.max_locals)?)
}

/// The pool of the maps.
fn pool(alloc: Global) -> Result<Pool, Fail> {
    let bytes = hex(alloc, POOL)?;
    Ok(read_pool(alloc, &mut Cursor::new(&bytes))?)
}

/// The frames of a code.
fn mapped(
    alloc: Global,
    world: &World,
    pool: &Pool,
    code: &CodeAttr,
) -> Result<Result<Vec<(u32, Frame)>, BadMap>, Fail> {
    let main = method_of(alloc, world, MAIN)?;
    let body = body_of(alloc, pool, code)?;
    Ok(frames_of(alloc, world, main, pool, code, &body))
}

/// Whether a frame at an offset is that of a text.
fn is_row(alloc: Global, found: &(u32, Frame), text: &str) -> Result<bool, Fail> {
    let (pc, frame) = text.split_once(' ').ok_or("an offset and a frame")?;
    Ok(found.0 == pc.parse::<u32>()? && found.1 == frame_of(alloc, frame)?)
}

/// Whether frames are those of a text.
fn are_rows(alloc: Global, rows: &[(u32, Frame)], wanted: &str) -> Result<bool, Fail> {
    for (place, text) in wanted.split(" / ").enumerate() {
        let found = rows.get(place).ok_or("a frame")?;
        if !is_row(alloc, found, text)? {
            return Ok(false);
        }
    }
    Ok(wanted.split(" / ").count() == rows.len())
}

/// Whether a map fails as a text says.
fn is_bad(refusal: BadMap, wanted: &str) -> bool {
    match refusal {
        BadMap::At { pc } => {
            word(wanted, 0) == "bad" && word(wanted, 1).parse::<u32>().ok() == Some(pc)
        }
        BadMap::Memory => false,
    }
}

/// Stack maps.
struct Maps;

impl Asked for Maps {
    fn is_answered(
        &self,
        alloc: Global,
        world: &World,
        asked: &str,
        wanted: &str,
    ) -> Result<bool, Fail> {
        let pool = pool(alloc)?;
        let code = code_of(alloc, asked, &pool)?;
        match mapped(alloc, world, &pool, &code)? {
            Ok(rows) => are_rows(alloc, &rows, wanted),
            Err(refusal) => Ok(is_bad(refusal, wanted)),
        }
    }
}

#[test]
fn reads_maps(rt: HostRuntime) -> Result<(), Fail> {
    let world = build(rt.alloc(), WORLD)??;
    assert_eq!(rt; first_wrong_in(rt.alloc(), &Maps, &world, MAPS)?, "");
    Ok(())
}

/// A method, how many local variables it has, and its first frame, or `none`.
const ENTRIES: &str = "\
app/S.<init>:(J)V 4 = this long top |!
app/S.<init>:(J)V 2 = none
app/S.main:([Ljava/lang/String;)V 2 = [Ljava/lang/String; top |
app/S.<init> 1 = this |!
java/lang/Object.<init> 1 = java/lang/Object |";

/// First frames.
struct Entries;

impl Asked for Entries {
    fn is_answered(
        &self,
        alloc: Global,
        world: &World,
        asked: &str,
        wanted: &str,
    ) -> Result<bool, Fail> {
        let m = method_of(alloc, world, word(asked, 0))?;
        let max_locals = word(asked, 1).parse::<u16>()?;
        is_frame(alloc, initial_frame(alloc, world, m, max_locals)?, wanted)
    }
}

#[test]
fn methods_begin_with_their_receiver(rt: HostRuntime) -> Result<(), Fail> {
    let world = build(rt.alloc(), WORLD)??;
    assert_eq!(rt; first_wrong_in(rt.alloc(), &Entries, &world, ENTRIES)?, "");
    Ok(())
}
