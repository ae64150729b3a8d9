//! A class file as `javac` wrote it, read, and files that differ from it in a byte or two.

use jv_bytes::Writer;
use jv_class::{BadClass, read_class, shape, write_class};
use jv_types::Copied;
use std::alloc::{AllocError, Global};
use std::test::Fail;
use tests_text::{hex, three_words};

/// `class Hello { public static void main(String[] args) { System.out.println("hi"); } }`, compiled by
/// `javac --release 8`.
const HELLO: &str = "\
cafebabe00000034001d0a000200030700040c000500060100106a6176612f6c616e672f4f626a6563740100063c\
696e69743e010003282956090008000907000a0c000b000c0100106a6176612f6c616e672f53797374656d010003\
6f75740100154c6a6176612f696f2f5072696e7453747265616d3b08000e01000268690a001000110700120c0013\
00140100136a6176612f696f2f5072696e7453747265616d0100077072696e746c6e010015284c6a6176612f6c61\
6e672f537472696e673b295607001601000548656c6c6f010004436f646501000f4c696e654e756d626572546162\
6c650100046d61696e010016285b4c6a6176612f6c616e672f537472696e673b295601000a536f7572636546696c\
6501000a48656c6c6f2e6a617661002100150002000000000002000100050006000100170000001d000100010000\
00052ab70001b10000000100180000000600010000000100090019001a00010017000000250002000100000009b2\
0007120db6000fb10000000100180000000a000200000003000800040001001b00000002001c";

/// A class `L` up to the length of the one attribute, `Code`, of its method `main`.
const LONG: &str = "\
cafebabe0000003400080100014c0700010100106a6176612f6c616e672f4f626a6563740700030100046d61696e\
010016285b4c6a6176612f6c616e672f537472696e673b2956010004436f64650021000200040000000000010009\
0005000600010007";

/// Bytes of the class file that are other ones, each after its place of two bytes, and whether it is a class
/// then; behind that, what it has.
const CHANGES: &str = "\
bad 000000 the magic number
bad 000800,000900 0 as the count of the pool
bad 0008ff,0009ff 65535 as the count of the pool
bad 00cd2e the name of the class with a dot
bad 001a5b a name that begins as an array
bad 007dc1,007e81 a spelling that is longer than needed
bad 012504 the class by the index of a text
bad 01271d a superclass that is out of range
bad 00eb3c the name of a method with a <
bad 00f249 a descriptor of no method
bad 015904 main both static and abstract
bad 015901 main native with a code
bad 015c05,015e06 a second method of the name and the descriptor of the first
bad 016e08 a code one byte shorter
bad 016e0a a code one byte longer
ok 012600,012700 no superclass
ok 012280 an unknown flag
ok 000401,000501 another minor version
ok 007d5b a name that begins as it may not, but that no class has";

/// Puts a byte at a place of the file, of a text of both.
fn change(alloc: Global, file: &mut Vec<u8>, text: &str) -> Result<(), AllocError> {
    if let [high, low, byte] = hex(alloc, text)?.as_slice() {
        if let Some(place) = file.get_mut(usize::from(u16::from_be_bytes([*high, *low]))) {
            *place = *byte;
        }
    }
    Ok(())
}

#[test]
fn tells_changed_files(rt: HostRuntime) -> Result<(), Fail> {
    for line in CHANGES.lines() {
        let (wanted, changes, _) = three_words(line);
        let mut file = hex(rt.alloc(), HELLO)?;
        for text in changes.split(',') {
            change(rt.alloc(), &mut file, text)?;
        }
        match read_class(rt.alloc(), &file) {
            Ok(_) => assert_eq!(rt; wanted, "ok", "at {line}"),
            Err(refusal) => {
                assert!(rt;
                    wanted == "bad" && refusal == BadClass::NotClass,
                    "at {line}"
                );
            }
        }
    }
    Ok(())
}

#[test]
fn reads_a_class(rt: HostRuntime) -> Result<(), Fail> {
    let file = hex(rt.alloc(), HELLO)?;
    let class = read_class(rt.alloc(), &file)?;
    assert_eq!(rt;
        (class.major, class.methods.len(), class.attrs.len()),
        (52, 2, 1)
    );
    let written = write_class(rt.alloc(), &class)?;
    assert_eq!(rt; written.as_slice(), file.as_slice());
    Ok(())
}

#[test]
fn refuses_each_front(rt: HostRuntime) -> Result<(), Fail> {
    let file = hex(rt.alloc(), HELLO)?;
    for len in 0..file.len() {
        let front = read_class(rt.alloc(), &file[..len]).err();
        assert_eq!(rt; front, Some(BadClass::NotClass), "of {len} bytes");
    }
    Ok(())
}

#[test]
fn refuses_a_byte_more(rt: HostRuntime) -> Result<(), Fail> {
    let mut file = hex(rt.alloc(), HELLO)?;
    file.push(0)?;
    let more = read_class(rt.alloc(), &file).err();
    assert_eq!(rt; more, Some(BadClass::NotClass));
    Ok(())
}

// The class `L`, whose `main` has as many bytes of code: nop, and a return at the end.
fn long_class(alloc: Global, len: u32) -> Result<Vec<u8>, AllocError> {
    let mut writer = Writer::new(alloc);
    writer.bytes(&hex(alloc, LONG)?)?;
    writer.put_u4(len.saturating_add(12))?;
    writer.put_u4(1)?;
    writer.put_u4(len)?;
    for _ in 1..len {
        writer.put_u1(0)?;
    }
    writer.put_u1(177)?;
    // no handlers, no attributes of the code, and none of the class
    writer.put_u4(0)?;
    writer.put_u2(0)?;
    Ok(writer.done())
}

#[test]
fn reads_the_longest_code(rt: HostRuntime) -> Result<(), Fail> {
    let most = long_class(rt.alloc(), 65535)?;
    assert!(rt; read_class(rt.alloc(), &most).is_ok());
    let over = long_class(rt.alloc(), 65536)?;
    assert!(rt; read_class(rt.alloc(), &over).is_err());
    Ok(())
}

#[test]
fn shapes_a_class(rt: HostRuntime) -> Result<(), Fail> {
    let file = hex(rt.alloc(), HELLO)?;
    let class = read_class(rt.alloc(), &file)?;
    let shape = shape(rt.alloc(), &class, true)?;
    assert_eq!(rt; shape.name.as_slice(), b"Hello".as_slice());
    match shape.methods.as_slice() {
        [init, main] => {
            assert_eq!(rt; init.name.as_slice(), b"<init>".as_slice());
            assert_eq!(rt; main.name.as_slice(), b"main".as_slice());
            assert!(rt; init.code && main.code);
        }
        _ => assert!(rt; false, "two methods"),
    }
    let copy = shape.copy()?;
    assert!(rt; copy == shape);
    Ok(())
}
