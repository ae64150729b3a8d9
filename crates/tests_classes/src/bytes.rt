use jv_bytes::{BadText, Cursor, ShownByte, Writer, laws, shown, text_of, units_of};
use std::alloc::{AllocError, Global};
use std::test::Fail;
use tests_text::{hex, three_words};

/// Texts in modified UTF-8 (JVMS 4.4.7), each with its units or `bad`.
const TEXTS: &str = "\
c080 0000
c08041e282ac 0000004120ac
c080017fc280dfbfe0a080efbfbfeda0bdedb880 00000001007f008007ff0800ffffd83dde00
00 bad
c181 bad
e09fbf bad
f09f9880 bad";

/// The bytes of units, two each.
fn bytes_of(alloc: Global, units: &[u16]) -> Result<Vec<u8>, AllocError> {
    let mut writer = Writer::new(alloc);
    for unit in units {
        writer.put_u2(*unit)?;
    }
    Ok(writer.done())
}

#[test]
fn texts_go_both_ways(rt: HostRuntime) -> Result<(), Fail> {
    for line in TEXTS.lines() {
        let (text, units, _) = three_words(line);
        let bytes = hex(rt.alloc(), text)?;
        match units_of(rt.alloc(), &bytes) {
            Err(refusal) => assert!(rt; refusal == BadText::Bad && units == "bad", "at {line}"),
            Ok(read) => {
                let wanted = hex(rt.alloc(), units)?;
                assert_eq!(rt; bytes_of(rt.alloc(), &read)?.as_slice(), wanted.as_slice());
                let again = text_of(rt.alloc(), &read)?;
                assert_eq!(rt; again.as_slice(), bytes.as_slice());
            }
        }
    }
    Ok(())
}

// 127 bytes stand for themselves. Of two bytes 127 * 127 are two such, 1920 are U+0080 to U+07FF, and
// one is U+0000.
#[test]
fn counts_short_texts(rt: HostRuntime) {
    let mut ones = 0u32;
    let mut twos = 0u32;
    for a in 0..=255u8 {
        if units_of(rt.alloc(), &[a]).is_ok() {
            ones = ones.saturating_add(1);
        }
        for b in 0..=255u8 {
            if units_of(rt.alloc(), &[a, b]).is_ok() {
                twos = twos.saturating_add(1);
            }
        }
    }
    assert_eq!(rt; ones, 127);
    assert_eq!(rt; twos, 18050);
}

/// Bytes and how they are shown.
const SHOWN: &str = "\
61206225 a%20b%25
001f217e7fff %00%1F!~%7F%FF";

#[test]
fn shows_texts(rt: HostRuntime) -> Result<(), Fail> {
    for line in SHOWN.lines() {
        let (bytes, wanted, _) = three_words(line);
        let text = shown(rt.alloc(), &hex(rt.alloc(), bytes)?)?;
        assert_eq!(rt; text.as_slice(), wanted.as_bytes());
    }
    assert_eq!(rt; ShownByte::new(b'%').as_slice(), b"%25".as_slice());
    Ok(())
}

#[test]
fn writes_numbers(rt: HostRuntime) -> Result<(), Fail> {
    let mut writer = Writer::new(rt.alloc());
    writer.put_u1(1)?;
    writer.put_u2(2)?;
    writer.put_u4(3)?;
    writer.bytes(&[9])?;
    let wanted = hex(rt.alloc(), "0100020000000309")?;
    assert_eq!(rt; writer.done().as_slice(), wanted.as_slice());
    Ok(())
}

#[test]
fn reads_numbers(rt: HostRuntime) {
    let bytes = [0xca, 0xfe, 0xba, 0xbe, 0x12, 0x34, 0x07, 0x08];
    let mut cursor = Cursor::new(&bytes);
    assert_eq!(rt; cursor.u4(), Some(0xcafe_babe));
    assert_eq!(rt; cursor.u2(), Some(0x1234));
    assert!(rt; cursor.take(3).is_none());
    assert!(rt; cursor.u4().is_none());
    assert_eq!(rt; cursor.left(), 2);
    assert_eq!(rt; cursor.u1(), Some(7));
    assert!(rt; cursor.u2().is_none());
    match cursor.take(1) {
        Some(rest) => assert_eq!(rt; rest, [8].as_slice()),
        None => assert!(rt; false),
    }
    assert!(rt; cursor.u1().is_none());
}

#[test]
fn laws_are_called(_rt: HostRuntime) {
    laws::numbers_are_big_endian();
    laws::numbers_have_one_text();
    laws::number_text_is_read();
    laws::number_fronts_agree();
    laws::units_have_one_text();
    laws::unit_fronts_agree();
    laws::texts_have_one_spelling();
    laws::text_fronts_agree();
}
