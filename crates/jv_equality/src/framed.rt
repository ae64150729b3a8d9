ghost use Rattle.std.specs.Prelude.{◌≡◌, IsTrue};
ghost use Rattle.std.specs.Option.{option_copied};
ghost use Rattle.jv_types.specs.Bodies.{rises_from, at_offset};

use jv_types::{Frame, FramedBody};

/// The frame before the instruction at an offset, found by halves. There is none exactly where the table
/// has none.
pub fn frame_at(framed: &FramedBody, pc: u16) -> Option<&Frame>
    requires rising { IsTrue (rises_from 0 framed.now.frames) }
    ensures value { option_copied result ≡ at_offset pc framed.now.frames }
{
    let frames = framed.frames.as_slice();
    match frames.binary_search_by_key(&pc, |row| row.0) {
        Ok(place) => Some(&frames[place].1),
        Err(_) => None,
    }
}
