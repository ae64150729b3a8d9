use jv_bytes::{Cursor, Writer};
use jv_pool::{BadPool, PoolItem, PoolRefusal, PoolWriter, one_pool_text, put_pool, read_pool};
use jv_types::Seq;
use std::alloc::Global;
use std::test::Fail;
use tests_text::{hex, three_words};

/// Whether an item is shown as this text, spaces left out.
fn is_shown(alloc: Global, item: &Option<&PoolItem>, wanted: &str) -> Result<bool, Fail> {
    let shown = format!(in alloc; "{item:?}")?;
    Ok(shown.replace(alloc, " ", "")?.as_str() == wanted)
}

/// Each tag once (JVMS table 4.4-A): Utf8, Class, NameAndType, Fieldref, Methodref, InterfaceMethodref, Integer,
/// Float, Long at 9, Double at 11, String, MethodHandle, MethodType and InvokeDynamic.
const EACH_TAG: &str = "001101000141070001\
0c000100010900020003\
0a000200030b00020003\
03ffffffff043f800000\
05fffffffffffffffe063ff0000000000000\
0800010f050005100001\
1200000003";

/// Bytes, and whether they are a pool.
const POOLS: &str = "\
bad 00
bad 0000
bad ffff
bad 000201000241
bad 0002020001
bad 0002010002c181
bad 0002050000000000000000
bad 0002070001
bad 0006010001410700010c000100010a000200030f000004
bad 0006010001410700010c000100010a000200030f090004
ok 0006010001410700010c000100010a000200030f080004
ok 0001
ok 000201000141";

#[test]
fn reads_pools(rt: HostRuntime) -> Result<(), Fail> {
    for line in POOLS.lines() {
        let (wanted, text, _) = three_words(line);
        let bytes = hex(rt.alloc(), text)?;
        match read_pool(rt.alloc(), &mut Cursor::new(&bytes)) {
            Ok(_) => assert_eq!(rt; wanted, "ok", "at {line}"),
            Err(refusal) => assert!(rt; wanted == "bad" && refusal == BadPool::Bad, "at {line}"),
        }
    }
    Ok(())
}

/// Items of the pool of each tag, by their indices.
const ITEMS: &str = "\
0 None
3 Some(NameAndType(1,1))
7 Some(Integer(-1))
9 Some(Long(-2))
10 Some(Hole)
11 Some(Double(4607182418800017408))
14 Some(MethodHandle(5,5))
16 Some(InvokeDynamic(0,3))
17 None";

#[test]
fn finds_items(rt: HostRuntime) -> Result<(), Fail> {
    let bytes = hex(rt.alloc(), EACH_TAG)?;
    let pool = read_pool(rt.alloc(), &mut Cursor::new(&bytes))?;
    for line in ITEMS.lines() {
        let (index, wanted, _) = three_words(line);
        let item = pool.item(index.parse::<u16>()?);
        assert!(rt; is_shown(rt.alloc(), &item, wanted)?, "at {line}");
    }
    Ok(())
}

#[test]
fn looks_up(rt: HostRuntime) -> Result<(), Fail> {
    let bytes = hex(rt.alloc(), EACH_TAG)?;
    let mut cursor = Cursor::new(&bytes);
    let pool = read_pool(rt.alloc(), &mut cursor)?;
    assert_eq!(rt; (cursor.left(), pool.items().len()), (0, 16));
    assert!(rt; pool.utf8(1) == Some(b"A".as_slice()));
    assert!(rt; pool.utf8(2).is_none());
    assert!(rt; pool.class_name(2) == Some(b"A".as_slice()));
    assert!(rt; pool.class_name(1).is_none());
    assert_eq!(rt; pool.name_and_type(3), Some((1, 1)));
    assert_eq!(rt; pool.name_and_type(4), None);
    for index in 4..7u16 {
        assert_eq!(rt; pool.member(index), Some((2, 3)));
    }
    assert_eq!(rt; pool.member(3), None);
    Ok(())
}

#[test]
fn writes_what_it_read(rt: HostRuntime) -> Result<(), Fail> {
    let bytes = hex(rt.alloc(), EACH_TAG)?;
    let pool = read_pool(rt.alloc(), &mut Cursor::new(&bytes))?;
    assert!(rt; pool.items().len() < 65535);
    let mut writer = Writer::new(rt.alloc());
    put_pool(&mut writer, &pool)?;
    assert_eq!(rt; writer.done().as_slice(), bytes.as_slice());
    one_pool_text();
    Ok(())
}

#[test]
fn adds_each_once(rt: HostRuntime) -> Result<(), Fail> {
    let mut writer = PoolWriter::new(rt.alloc());
    for index in [1, 1] {
        let text = Seq::from_vec(hex(rt.alloc(), "41")?);
        assert_eq!(rt; writer.add(PoolItem::Utf8(text))?, index);
    }
    assert_eq!(rt; writer.add(PoolItem::Long(7))?, 2);
    assert_eq!(rt; writer.add(PoolItem::Class(1))?, 4);
    assert_eq!(rt; writer.add(PoolItem::Long(7))?, 2);
    assert_eq!(rt; writer.done().items().len(), 4);
    Ok(())
}

#[test]
fn fills_up(rt: HostRuntime) -> Result<(), Fail> {
    let mut writer = PoolWriter::new(rt.alloc());
    for number in 0..65533 {
        writer.add(PoolItem::Integer(number))?;
    }
    assert_eq!(rt; writer.add(PoolItem::Long(1)), Err(PoolRefusal::PoolFull));
    assert_eq!(rt; writer.add(PoolItem::Float(1)), Ok(65534));
    assert_eq!(rt; writer.add(PoolItem::Float(2)), Err(PoolRefusal::PoolFull));
    assert_eq!(rt; writer.add(PoolItem::Float(1)), Ok(65534));
    Ok(())
}
