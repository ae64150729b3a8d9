use jv_table::{
    Cell, Form, FrameGroup, FrameRow, Kind, TypeRow, frame_kind, frame_kinds, newarray_code,
    newarray_codes, opcode, opcodes, pool_tag, pool_tags, type_tag, type_tags,
};
use std::test::*;

#[test]
fn finds_the_tags(rt: HostRuntime) -> Result<(), Fail> {
    let long = pool_tag(5).ok_or("a Long has a row")?;
    assert_eq!(rt; long.parts, [4, 4].as_slice());
    assert_eq!(rt; long.slots, 2);
    let handle = pool_tag(15).ok_or("a MethodHandle has a row")?;
    assert_eq!(rt; handle.parts, [1, 2].as_slice());
    assert_eq!(rt; handle.slots, 1);
    for tag in [0, 2, 13, 14, 17, 19, 255] {
        assert!(rt; pool_tag(tag).is_none(), "at {tag}");
    }
    Ok(())
}

#[test]
fn finds_the_frames(rt: HostRuntime) {
    for (kind, group) in [
        (0, FrameGroup::Same),
        (63, FrameGroup::Same),
        (64, FrameGroup::SameOne),
        (127, FrameGroup::SameOne),
        (247, FrameGroup::SameOneExtended),
        (248, FrameGroup::Chop),
        (250, FrameGroup::Chop),
        (251, FrameGroup::SameExtended),
        (252, FrameGroup::Append),
        (254, FrameGroup::Append),
        (255, FrameGroup::Full),
    ] {
        assert_eq!(rt;
            frame_kind(kind).copied(),
            Some(FrameRow { kind, group }),
            "at {kind}"
        );
    }
    for kind in 128..247u8 {
        assert!(rt; frame_kind(kind).is_none(), "at {kind}");
    }
}

#[test]
fn finds_the_types(rt: HostRuntime) {
    for tag in 0..9u8 {
        assert_eq!(rt;
            type_tag(tag).copied(),
            Some(TypeRow { tag, arg: 7 <= tag }),
            "at {tag}"
        );
    }
    assert!(rt; type_tag(9).is_none());
}

#[test]
fn gives_rows_by_place(rt: HostRuntime) {
    let kinds = frame_kinds();
    kinds.law();
    assert_eq!(rt; kinds.row(128).map(|row| row.kind), Some(247));
    assert_eq!(rt; kinds.row(136).map(|row| row.kind), Some(255));
    assert!(rt; kinds.row(137).is_none());
    let types = type_tags();
    assert_eq!(rt; types.row(8).map(|row| row.tag), Some(8));
    assert!(rt; types.row(9).is_none());
    let tags = pool_tags();
    assert_eq!(rt; tags.row(13).map(|row| row.tag), Some(18));
    assert!(rt; tags.row(14).is_none());
}

#[test]
fn finds_the_opcodes(rt: HostRuntime) -> Result<(), Fail> {
    let add = opcode(0x61).ok_or("ladd has a row")?;
    assert_eq!(rt; add.takes, [Cell::Long, Cell::Long].as_slice());
    assert_eq!(rt; add.gives, [Cell::Long].as_slice());
    assert_eq!(rt; (add.form, add.kind), (Form::Nothing, Kind::Word));
    let store = opcode(0x53).ok_or("aastore has a row")?;
    assert_eq!(rt; store.takes, [Cell::Ref, Cell::Int, Cell::Ref].as_slice());
    for op in 0..202u8 {
        assert_eq!(rt; opcode(op).map(|row| row.op), Some(op), "at {op}");
    }
    for op in 202..=255u8 {
        assert!(rt; opcode(op).is_none(), "at {op}");
    }
    assert_eq!(rt; opcodes().row(201).map(|row| row.form), Some(Form::Jump4));
    Ok(())
}

#[test]
fn finds_the_newarray_codes(rt: HostRuntime) {
    let codes = newarray_codes();
    for (i, letter) in b"ZCFDBSIJ".iter().enumerate() {
        assert_eq!(rt; codes.row(i).copied(), Some(*letter), "at {i}");
    }
    assert_eq!(rt; newarray_code(10), Some(b'I'));
    assert_eq!(rt; newarray_code(3), None);
    assert_eq!(rt; newarray_code(12), None);
}
