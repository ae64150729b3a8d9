//! The local variables that instructions name, and how many bytes instructions take (JVMS 6.5).

use jv_insn::{is_load, is_store, local_of, size_at};
use jv_types::{Arg, Insn, Seq};
use std::alloc::Global;
use std::test::Fail;

/// Instructions without operands, and the local variables that they name: iload_0 to aload_3, and istore_0 to
/// astore_3.
#[test]
fn names_locals_by_opcodes(rt: HostRuntime) -> Result<(), Fail> {
    for (op, local) in [
        (26, 0),
        (29, 3),
        (30, 0),
        (37, 3),
        (42, 0),
        (45, 3),
        (59, 0),
        (62, 3),
        (63, 0),
        (75, 0),
        (78, 3),
    ] {
        assert_eq!(rt; local_of(op, &Arg::Nothing), local, "at {op}");
    }
    assert_eq!(rt; local_of(21, &Arg::Local(300)), 300);
    assert_eq!(rt; local_of(132, &Arg::Inc(7, -1)), 7);
    Ok(())
}

// Loads are iload to aload_3, and stores istore to astore_3.
#[test]
fn tells_loads_and_stores(rt: HostRuntime) -> Result<(), Fail> {
    for op in 0..=255u8 {
        assert_eq!(rt; is_load(op), op >= 21 && op <= 45, "at {op}");
        assert_eq!(rt; is_store(op), op >= 54 && op <= 78, "at {op}");
    }
    Ok(())
}

/// How many bytes an instruction of these operands takes at an offset.
fn size_of(op: u8, wide: bool, pc: u16, arg: Arg) -> Option<usize> {
    let insn = Insn { op, wide, arg };
    size_at(pc, &insn)
}

/// Whether the sizes of a tableswitch of two targets are so, by how much it is padded.
fn switches_are_padded(alloc: Global) -> Result<bool, Fail> {
    for (pc, size) in [(0, 24), (1, 23), (2, 22), (3, 21), (4, 24)] {
        let mut targets = Seq::new(alloc);
        targets.push(0)?;
        targets.push(0)?;
        let arg = Arg::Table {
            default: 0,
            low: 5,
            targets,
        };
        if size_of(170, false, pc, arg) != Some(size) {
            return Ok(false);
        }
    }
    Ok(true)
}

#[test]
fn tells_sizes(rt: HostRuntime) -> Result<(), Fail> {
    assert_eq!(rt; size_of(0, false, 0, Arg::Nothing), Some(1));
    assert_eq!(rt; size_of(16, false, 0, Arg::Small(3)), Some(2));
    assert_eq!(rt; size_of(17, false, 0, Arg::Small(3)), Some(3));
    assert_eq!(rt; size_of(21, false, 0, Arg::Local(9)), Some(2));
    assert_eq!(rt; size_of(21, true, 0, Arg::Local(9)), Some(4));
    assert_eq!(rt; size_of(132, true, 0, Arg::Inc(9, 1)), Some(6));
    assert_eq!(rt; size_of(167, false, 7, Arg::Jump(0)), Some(3));
    assert_eq!(rt; size_of(200, false, 7, Arg::Jump(0)), Some(5));
    assert!(rt; switches_are_padded(rt.alloc())?);
    Ok(())
}
