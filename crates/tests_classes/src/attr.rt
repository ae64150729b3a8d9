use jv_attr::{
    Attr, AttrBody, BadAttr, MapType, Owner, has_few, one_attr_text, put_attr, read_attr,
};
use jv_bytes::{Cursor, Writer};
use jv_pool::{Pool, read_pool};
use std::alloc::Global;
use std::test::Fail;
use tests_text::{hex, three_words};

/// A pool with `Code` at 1, `LineNumberTable` at 2, `StackMapTable` at 3, and the class `A` at 5.
const POOL: &str = "0006010004436f6465\
01000f4c696e654e756d6265725461626c65\
01000d537461636b4d61705461626c65\
01000141070004";

/// The `Code` of a `main` that prints a text, as javac 8 writes it (JVMS 4.7.3, 4.7.12).
const MAIN: &str = "0001000000250002000100000009b200021203b60004b1\
0000000100020000000a00020000000300080004";

/// A `StackMapTable` with a frame of each group (JVMS 4.7.4).
const MAPS: &str =
    "0003000000220008054001f70010070005fa0001fb0002fd00030104ff000400010800090001003f";

fn pool(alloc: Global) -> Result<Pool, Fail> {
    let bytes = hex(alloc, POOL)?;
    Ok(read_pool(alloc, &mut Cursor::new(&bytes))?)
}

/// The attribute that a text spells in a class file of a version, over the pool.
fn attr_of(
    alloc: Global,
    text: &str,
    owner: Owner,
    major: u16,
) -> Result<Result<Attr, BadAttr>, Fail> {
    let pool = pool(alloc)?;
    let bytes = hex(alloc, text)?;
    Ok(read_attr(alloc, &mut Cursor::new(&bytes), &pool, owner, major))
}

/// Whether an attribute is written as a text spells it.
fn is_written(alloc: Global, attr: &Attr, text: &str) -> Result<bool, Fail> {
    let mut writer = Writer::new(alloc);
    put_attr(alloc, &mut writer, attr)?;
    Ok(writer.done().as_slice() == hex(alloc, text)?.as_slice())
}

#[test]
fn reads_the_code_of_main(rt: HostRuntime) -> Result<(), Fail> {
    let attr = attr_of(rt.alloc(), MAIN, Owner::Method, 52)??;
    assert!(rt; is_written(rt.alloc(), &attr, MAIN)?);
    assert!(rt; has_few(&attr));
    match &attr.body {
        AttrBody::Code(code) => {
            assert_eq!(rt; (code.max_stack, code.max_locals), (2, 1));
            assert_eq!(rt; code.code.len(), 9);
            assert_eq!(rt; code.handlers.len(), 0);
            assert_eq!(rt; code.attrs.len(), 1);
        }
        _ => assert!(rt; false),
    }
    one_attr_text();
    Ok(())
}

#[test]
fn reads_frames(rt: HostRuntime) -> Result<(), Fail> {
    let attr = attr_of(rt.alloc(), MAPS, Owner::Code, 50)??;
    assert!(rt; is_written(rt.alloc(), &attr, MAPS)?);
    match &attr.body {
        AttrBody::Maps(frames) => {
            let full = frames.as_slice().get(6).ok_or("a frame")?;
            assert_eq!(rt; (frames.len(), full.kind, full.delta), (8, 255, 4));
            assert_eq!(rt;
                full.locals.as_slice(),
                [MapType { tag: 8, arg: 9 }].as_slice()
            );
            assert_eq!(rt;
                full.stack.as_slice(),
                [MapType { tag: 0, arg: 0 }].as_slice()
            );
        }
        _ => assert!(rt; false),
    }
    Ok(())
}

#[test]
fn keeps_other_attributes_raw(rt: HostRuntime) -> Result<(), Fail> {
    let of_field = attr_of(rt.alloc(), MAIN, Owner::Field, 52)??;
    assert!(rt; matches!(&of_field.body, AttrBody::Raw(_)));
    let old = attr_of(rt.alloc(), MAPS, Owner::Code, 49)??;
    assert!(rt; matches!(&old.body, AttrBody::Raw(_)));
    Ok(())
}

/// Attributes of a method and of a code, and whether they are read; behind each, what it has.
const ATTRS: &str = "\
ok method 00010000000d0002000100000001b100000000 a byte of code
bad method 00010000000c000200010000000000000000 no byte of code
bad method 00010000000d0002000100000008b100000000 a byte of code more than there is
bad method 00010000001d0002000100000001b10000000200030000000200000003000000020000 two tables of frames
ok method 0001000000150002000100000001b1000000010003000000020000 one table of frames
ok method 00010000001d0002000100000001b10002000000010000000000000001000000050000 handlers of any and of a class
bad method 0001000000150002000100000001b1000100000001000000040000 a handler of a text
bad method 00010000000e0002000100000001b10000000007 a byte behind the code
bad method 00010000000b0002000100000001b1ffff as many handlers as two bytes count, and none there
bad method 000500000000 a name that is no text
bad method 000600000000 no such index
bad code 000300000003000180 kind 128, which is reserved
bad code 0003000000030001f6 kind 246, which is reserved
bad code 0003000000060001fa000101 a chop with a local
bad code 00030000000400014009 a type of tag 9
bad code 000300000006000140070004 an object of no class
ok code 000300000006000140070005 an object
bad code 000300000003000200 a frame less than counted
bad code 00030000000400010000 a frame more than counted
bad code 0003000000090000 no content of its length";

#[test]
fn tells_attributes(rt: HostRuntime) -> Result<(), Fail> {
    for line in ATTRS.lines() {
        let (wanted, kind, text) = three_words(line);
        let owner = if kind == "code" {
            Owner::Code
        } else {
            Owner::Method
        };
        match attr_of(rt.alloc(), text, owner, 52)? {
            Ok(_) => assert_eq!(rt; wanted, "ok", "at {line}"),
            Err(refusal) => {
                assert!(rt;
                    wanted == "bad" && matches!(refusal, BadAttr::Bad),
                    "at {line}"
                );
            }
        }
    }
    Ok(())
}
