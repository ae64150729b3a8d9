//! Which verification types and frames may stand for which (JVMS 4.10.1.2).

use jv_frames::{are_assignable, assignable, frame_assignable};
use jv_world::World;
use std::alloc::Global;
use std::test::Fail;
use tests_shapes::{Asked, build, first_wrong_in, frame_of, vtype_of, words_of};
use tests_text::word;

const WORLD: &str = "java/lang/Object,C java/lang/String,F java/lang/Runnable,I";

/// Two types, and whether the first may stand for the second.
const TYPES: &str = "\
java/lang/String java/lang/Runnable = yes
java/lang/Object java/lang/Runnable = yes
java/lang/String java/lang/Object = yes
java/lang/Object java/lang/String = no
null java/lang/String = yes
java/lang/String null = no
new@3 top = yes
new@3 new@3 = yes
new@3 new@4 = no
this java/lang/Object = no
int int = yes
int float = no
[Ljava/lang/String; [Ljava/lang/Object; = yes
[Ljava/lang/Object; [Ljava/lang/String; = no
[I [Ljava/lang/Object; = no
[[I [Ljava/lang/Object; = yes
[I [J = no
[Ljava/lang/String; java/lang/Runnable = no
[Ljava/lang/String; java/lang/Cloneable = yes";

/// Pairs of types.
struct Types;

impl Asked for Types {
    fn is_answered(
        &self,
        alloc: Global,
        world: &World,
        asked: &str,
        wanted: &str,
    ) -> Result<bool, Fail> {
        let from = vtype_of(alloc, word(asked, 0))?;
        let to = vtype_of(alloc, word(asked, 1))?;
        Ok(assignable(world, &from, &to) == (wanted == "yes"))
    }
}

#[test]
fn tells_types(rt: HostRuntime) -> Result<(), Fail> {
    let world = build(rt.alloc(), WORLD)??;
    assert_eq!(rt; first_wrong_in(rt.alloc(), &Types, &world, TYPES)?, "");
    Ok(())
}

/// Two lists of words, and whether the first may stand for the second, word by word.
const LISTS: &str = "\
int null to int java/lang/String = yes
int null to top = no
int null to int int = no
long to long = yes
long to top top = yes";

/// What stands before and behind the word `to`.
fn both(text: &str) -> (&str, &str) {
    text.split_once(" to ").unwrap_or((text, ""))
}

/// Pairs of lists.
struct Lists;

impl Asked for Lists {
    fn is_answered(
        &self,
        alloc: Global,
        world: &World,
        asked: &str,
        wanted: &str,
    ) -> Result<bool, Fail> {
        let (from, to) = both(asked);
        let from = words_of(alloc, from)?;
        let to = words_of(alloc, to)?;
        Ok(are_assignable(world, from.as_slice(), to.as_slice()) == (wanted == "yes"))
    }
}

#[test]
fn tells_lists(rt: HostRuntime) -> Result<(), Fail> {
    let world = build(rt.alloc(), WORLD)??;
    assert_eq!(rt; first_wrong_in(rt.alloc(), &Lists, &world, LISTS)?, "");
    Ok(())
}

/// Two frames, and whether the first may stand for the second.
const FRAMES: &str = "\
int | to top | = yes
int | to top |! = yes
top |! to top | = no
top | to int | = no
int | to top top | = no
int | int to int | int = yes
int | int to int | = no
int | null to int | java/lang/String = yes";

/// Pairs of frames.
struct Frames;

impl Asked for Frames {
    fn is_answered(
        &self,
        alloc: Global,
        world: &World,
        asked: &str,
        wanted: &str,
    ) -> Result<bool, Fail> {
        let (from, to) = both(asked);
        let from = frame_of(alloc, from)?;
        let to = frame_of(alloc, to)?;
        Ok(frame_assignable(world, &from, &to) == (wanted == "yes"))
    }
}

#[test]
fn tells_frames(rt: HostRuntime) -> Result<(), Fail> {
    let world = build(rt.alloc(), WORLD)??;
    assert_eq!(rt; first_wrong_in(rt.alloc(), &Frames, &world, FRAMES)?, "");
    Ok(())
}
