//! The frame before the instruction at an offset.

ghost use Rattle.std.specs.Prelude.{IsTrue, IfOk};
ghost use Rattle.jv_types.specs.Bodies.{rises_from};

use jv_equality::frame_at;
use jv_types::{Body, ClassId, Frame, FramedBody, MethodId, Seq};
use std::alloc::Global;
use std::test::Fail;
use tests_shapes::frame_of;

/// A frame at 0, and one at 3.
fn rows_of(alloc: Global, first: Frame, second: Frame) -> Result<Seq<(u16, Frame)>, Fail>
    ensures { IfOk result (λ rows. IsTrue (rises_from 0 rows)) }
{
    let mut rows = Vec::new(alloc);
    rows.push((0, first))?;
    rows.push((3, second))?;
    Ok(Seq::from_vec(rows))
}

/// A body without instructions.
fn bare_body(alloc: Global) -> Body {
    Body {
        max_stack: 1,
        max_locals: 0,
        length: 4,
        insns: Seq::new(alloc),
        handlers: Seq::new(alloc),
    }
}

/// A table of the frames of two texts, at 0 and 3.
fn table_of(alloc: Global, first: &str, second: &str) -> Result<FramedBody, Fail>
    ensures { IfOk result (λ framed. IsTrue (rises_from 0 framed.frames)) }
{
    let first = frame_of(alloc, first)?;
    let frames = rows_of(alloc, first, frame_of(alloc, second)?)?;
    Ok(FramedBody {
        method: MethodId {
            class: ClassId { number: 0 },
            index: 0,
        },
        body: bare_body(alloc),
        frames,
    })
}

/// Whether a table has the frame of a text at an offset, or none.
fn has(alloc: Global, pc: u16, wanted: &str) -> Result<bool, Fail> {
    let table = table_of(alloc, "|", "| int")?;
    match frame_at(&table, pc) {
        None => Ok(wanted == "none"),
        Some(_) if wanted == "none" => Ok(false),
        Some(frame) => Ok(*frame == frame_of(alloc, wanted)?),
    }
}

#[test]
fn finds_frames_by_their_offsets(rt: HostRuntime) -> Result<(), Fail> {
    for (pc, wanted) in [(0, "|"), (1, "none"), (3, "| int"), (4, "none")] {
        assert!(rt; has(rt.alloc(), pc, wanted)?, "at {pc}");
    }
    Ok(())
}
