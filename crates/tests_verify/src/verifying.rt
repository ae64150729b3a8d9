//! Methods that are verified, and the offsets at which others fail (JVMS 4.10.1).

use crate::asked::answer;
use crate::class_files::file_of;
use jv_types::{Frame, FramedBody, Rule};
use jv_verify::VerifyRefusal;
use jv_world::World;
use std::alloc::Global;
use std::test::Fail;
use tests_shapes::{build, frame_of, method_of};
use tests_text::{part, word};

const WORLD: &str = "\
    java/lang/String,F \
    java/lang/Throwable,C \
    java/lang/Exception,C,java/lang/Throwable \
    app/S,C,,+smain:([Ljava/lang/String;)V,+.<init>";

/// Whether a frame at an offset is that of a text.
fn is_row(alloc: Global, found: &(u16, Frame), text: &str) -> Result<bool, Fail> {
    let (pc, frame) = text.split_once(' ').ok_or("an offset and a frame")?;
    Ok(found.0 == pc.parse::<u16>()? && found.1 == frame_of(alloc, frame)?)
}

/// Whether frames are those of a text.
fn are_rows(alloc: Global, framed: &FramedBody, wanted: &str) -> Result<bool, Fail> {
    let rows = framed.frames.as_slice();
    for (place, text) in wanted.split(" / ").enumerate() {
        let found = rows.get(place).ok_or("a frame")?;
        if !is_row(alloc, found, text)? {
            return Ok(false);
        }
    }
    Ok(wanted.split(" / ").count() == rows.len())
}

/// Whether a method fails as a text says: a rule, and an offset.
fn is_refused(rule: Rule, pc: u32, wanted: &str) -> Result<bool, Fail> {
    let (number, offset) = wanted.split_once(' ').ok_or("a rule and an offset")?;
    Ok(offset.parse::<u32>().ok() == Some(pc) && number.parse::<u8>()? == rule.number())
}

/// Whether a row has its answer.
fn is_answered(alloc: Global, world: &World, row: &str) -> Result<bool, Fail> {
    let id = method_of(alloc, world, part(row, 0))?;
    let bytes = file_of(alloc, part(row, 0), part(row, 1))?;
    let wanted = part(row, 2);
    match answer(alloc, world, &bytes, id)? {
        Ok(framed) => are_rows(alloc, &framed, wanted),
        Err(VerifyRefusal::At { rule, pc }) => is_refused(rule, pc, wanted),
        Err(VerifyRefusal::Memory) => Ok(false),
    }
}

/// The first row that doesn't have its answer, and an empty text where each has. A row is a method, its code, and
/// its frames, each behind its offset, or a rule and the offset at which that fails. A line that begins with `#` is
/// no row.
fn first_wrong<'a>(alloc: Global, rows: &'a str) -> Result<&'a str, Fail> {
    let world = build(alloc, WORLD)??;
    for row in rows.lines() {
        if !row.starts_with('#') && !is_answered(alloc, &world, row)? {
            return Ok(row);
        }
    }
    Ok("")
}

/// Constructors.
const CONSTRUCTORS: &str = "\
# return at once, which Object's own may do
app/S.<init> = 0 1 b1 - 0 - = 19 0
java/lang/Object.<init> = 0 1 b1 - 0 - = 0 java/lang/Object |
# aload_0, invokespecial of Object's, return
app/S.<init> = 1 1 2ab7000eb1 - 0 - = 0 this |! / 1 this | this! / 4 app/S |
# goto 3, and the same there, with a map whose frame has the flag; and a map that loses it
app/S.<init> = 1 1 a700032ab7000eb1 - 1 03 = 0 this |! / 3 this |! / 4 this | this! / 7 app/S |
app/S.<init> = 1 1 a70003b1 - 1 fa0003 = 19 0
# a handler that covers the call alone: its frame has the flag
app/S.<init> = 1 1 2ab7000eb1bf 0001000400050000 1 ff00050001060001070008 = 0 this |! / 1 this | this! / 4 app/S | / 5 this | java/lang/Throwable!
app/S.<init> = 1 1 2ab7000eb1bf 0001000400050000 1 ff00050001000001070008 = 19 1
# one that covers the return too, where the receiver is initialised
app/S.<init> = 1 1 2ab7000eb1bf 0001000500050000 1 ff00050001060001070008 = 19 4";

#[test]
fn verifies_constructors(rt: HostRuntime) -> Result<(), Fail> {
    assert_eq!(rt; first_wrong(rt.alloc(), CONSTRUCTORS)?, "");
    Ok(())
}

/// Frames of maps, and the frames that instructions leave at them.
const MAPS: &str = "\
# iconst_0, istore_1, iinc 1 1, goto 2, with an Integer or a String appended at 2
app/S.main:([Ljava/lang/String;)V = 1 2 033c840101a7fffd - 1 fc000201 = 0 [Ljava/lang/String; top | / 1 [Ljava/lang/String; top | int / 2 [Ljava/lang/String; int | / 5 [Ljava/lang/String; int |
app/S.main:([Ljava/lang/String;)V = 1 2 033c840101a7fffd - 1 fc0002070006 = 19 1
# a map at 0: as the method begins, one that says less, and one that doesn't fit
app/S.main:([Ljava/lang/String;)V = 0 1 b1 - 1 00 = 0 [Ljava/lang/String; |
app/S.main:([Ljava/lang/String;)V = 0 1 b1 - 1 ff000000000000 = 0 top |
app/S.main:([Ljava/lang/String;)V = 1 1 2a57b1 - 1 ff000000000000 = 19 0
app/S.main:([Ljava/lang/String;)V = 0 1 b1 - 1 ff00000001010000 = 19 0
# aconst_null, astore_0, return, with a String at 2
app/S.main:([Ljava/lang/String;)V = 1 1 014bb1 - 0 - = 0 [Ljava/lang/String; | / 1 [Ljava/lang/String; | null / 2 null |
app/S.main:([Ljava/lang/String;)V = 1 1 014bb1 - 1 ff000200010700060000 = 0 [Ljava/lang/String; | / 1 [Ljava/lang/String; | null / 2 java/lang/String |
# maps that are none: not at an instruction, with too many local variables, chopping too many, with too many words,
# of an object that no new makes, and one at 8, though an instruction fails before it
app/S.main:([Ljava/lang/String;)V = 1 2 033c840101a7fffd - 1 fc000301 = 18 3
app/S.main:([Ljava/lang/String;)V = 1 2 033c840101a7fffd - 1 fc000204 = 18 2
app/S.main:([Ljava/lang/String;)V = 1 2 033c840101a7fffd - 1 f80002 = 18 2
app/S.main:([Ljava/lang/String;)V = 0 2 033c840101a7fffd - 1 4201 = 18 2
app/S.main:([Ljava/lang/String;)V = 1 2 033c840101a7fffd - 1 42080000 = 18 2
app/S.main:([Ljava/lang/String;)V = 1 1 5700b1 - 2 0007 = 18 8";

#[test]
fn verifies_by_maps(rt: HostRuntime) -> Result<(), Fail> {
    assert_eq!(rt; first_wrong(rt.alloc(), MAPS)?, "");
    Ok(())
}

/// Where instructions go.
const GOING: &str = "\
# iconst_0, ifeq 4, return: no map is wanted where a frame is forced
app/S.main:([Ljava/lang/String;)V = 1 1 03990003b1 - 0 - = 0 [Ljava/lang/String; | / 1 [Ljava/lang/String; | int / 4 [Ljava/lang/String; |
# nop, iconst_0, ifeq 0, return
app/S.main:([Ljava/lang/String;)V = 1 1 000399fffeb1 - 0 - = 0 [Ljava/lang/String; | / 1 [Ljava/lang/String; | / 2 [Ljava/lang/String; | int / 5 [Ljava/lang/String; |
# iconst_0, iconst_0, ifeq 0, pop, return: an int is left on the stack
app/S.main:([Ljava/lang/String;)V = 2 1 030399fffe57b1 - 0 - = 19 2
# goto itself, return: behind a goto a map is wanted
app/S.main:([Ljava/lang/String;)V = 0 1 a70000b1 - 0 - = 19 3
app/S.main:([Ljava/lang/String;)V = 0 1 a70000b1 - 1 03 = 0 [Ljava/lang/String; | / 3 [Ljava/lang/String; |
# goto 3, return: where it goes no frame is forced
app/S.main:([Ljava/lang/String;)V = 0 1 a70003b1 - 0 - = 19 0
# return, return
app/S.main:([Ljava/lang/String;)V = 0 1 b1b1 - 0 - = 19 1
# aconst_null, athrow, return
app/S.main:([Ljava/lang/String;)V = 1 1 01bfb1 - 0 - = 19 2
app/S.main:([Ljava/lang/String;)V = 1 1 01bfb1 - 1 02 = 0 [Ljava/lang/String; | / 1 [Ljava/lang/String; | null / 2 [Ljava/lang/String; |
# iconst_0, a switch whose targets are a return at its end
app/S.main:([Ljava/lang/String;)V = 1 1 03aa000000000013000000000000000000000013b1 - 0 - = 19 1
app/S.main:([Ljava/lang/String;)V = 1 1 03aa000000000013000000000000000000000013b1 - 1 14 = 0 [Ljava/lang/String; | / 1 [Ljava/lang/String; | int / 20 [Ljava/lang/String; |
app/S.main:([Ljava/lang/String;)V = 1 1 03ab00000000000b00000000b1 - 0 - = 19 1
app/S.main:([Ljava/lang/String;)V = 1 1 03ab00000000000b00000000b1 - 1 0c = 0 [Ljava/lang/String; | / 1 [Ljava/lang/String; | int / 12 [Ljava/lang/String; |
# nop: there is nothing behind it
app/S.main:([Ljava/lang/String;)V = 0 1 00 - 0 - = 19 0";

#[test]
fn verifies_where_instructions_go(rt: HostRuntime) -> Result<(), Fail> {
    assert_eq!(rt; first_wrong(rt.alloc(), GOING)?, "");
    Ok(())
}

/// How many words there may be.
const WORDS: &str = "\
# iconst_0, iconst_0, return
app/S.main:([Ljava/lang/String;)V = 2 1 0303b1 - 0 - = 0 [Ljava/lang/String; | / 1 [Ljava/lang/String; | int / 2 [Ljava/lang/String; | int int
app/S.main:([Ljava/lang/String;)V = 1 1 0303b1 - 0 - = 19 1
# the receiver and the parameters have more words than there may be
app/S.main:([Ljava/lang/String;)V = 0 0 b1 - 0 - = 19 0
# lload_1, and lconst_0 with lstore_1, of which the second word is one too many
app/S.main:([Ljava/lang/String;)V = 2 2 1fb1 - 0 - = 19 0
app/S.main:([Ljava/lang/String;)V = 2 2 0940b1 - 0 - = 19 1
app/S.main:([Ljava/lang/String;)V = 2 3 0940b1 - 0 - = 0 [Ljava/lang/String; top top | / 1 [Ljava/lang/String; top top | long / 2 [Ljava/lang/String; long |";

#[test]
fn verifies_words(rt: HostRuntime) -> Result<(), Fail> {
    assert_eq!(rt; first_wrong(rt.alloc(), WORDS)?, "");
    Ok(())
}

/// Handlers of nop, nop, return, pop, return, at 3.
const HANDLERS: &str = "\
# of all, and of Exception
app/S.main:([Ljava/lang/String;)V = 1 1 0000b157b1 0001000300030000 1 43070008 = 0 [Ljava/lang/String; | / 1 [Ljava/lang/String; | / 2 [Ljava/lang/String; | / 3 [Ljava/lang/String; | java/lang/Throwable / 4 [Ljava/lang/String; |
app/S.main:([Ljava/lang/String;)V = 1 1 0000b157b1 0001000300030010 1 43070010 = 0 [Ljava/lang/String; | / 1 [Ljava/lang/String; | / 2 [Ljava/lang/String; | / 3 [Ljava/lang/String; | java/lang/Exception / 4 [Ljava/lang/String; |
app/S.main:([Ljava/lang/String;)V = 1 1 0000b157b1 0001000300030010 1 43070004 = 0 [Ljava/lang/String; | / 1 [Ljava/lang/String; | / 2 [Ljava/lang/String; | / 3 [Ljava/lang/String; | java/lang/Object / 4 [Ljava/lang/String; |
# of all, where the map has an Exception
app/S.main:([Ljava/lang/String;)V = 1 1 0000b157b1 0001000300030000 1 43070010 = 19 1
# of app/S, which is no throwable
app/S.main:([Ljava/lang/String;)V = 1 1 0000b157b1 000100030003000a 1 4307000a = 19 1
app/S.main:([Ljava/lang/String;)V = 1 1 0000b157b1 000000030003000a 1 4307000a = 19 0
app/S.main:([Ljava/lang/String;)V = 1 1 0000b157b1 000200030003000a 1 4307000a = 19 2
# where no frame is forced
app/S.main:([Ljava/lang/String;)V = 1 1 0000b157b1 0001000300030000 0 - = 19 1
# without room for the throwable
app/S.main:([Ljava/lang/String;)V = 0 1 0000b1b1 0001000300030000 1 43070008 = 18 3";

#[test]
fn verifies_handlers(rt: HostRuntime) -> Result<(), Fail> {
    assert_eq!(rt; first_wrong(rt.alloc(), HANDLERS)?, "");
    Ok(())
}
