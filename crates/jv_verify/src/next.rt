ghost use Rattle.std.specs.Prelude.{ℕ, IsTrue, IfSome, IfNone};
ghost use Rattle.jv_types.specs.Bodies.{rises_from};
ghost use Rattle.jv_verify.specs.Steps.Forcing.{IsHandedOn};

use crate::goes::is_end;
use crate::near::next_near;
use crate::rows::map_at;
use jv_types::{Body, Frame};

/// The offset of the next instruction, where the frame there is what this one leaves: it goes on, and no map
/// stands there. This one mostly stands at this place among the instructions.
pub fn handed_on(body: &Body, maps: &[(u32, Frame)], place: usize, pc: u16, op: u8) -> Option<u16>
    requires rising { IsTrue (rises_from 0 maps.now) }
    ensures found { IfSome result (IsHandedOn body.now maps.now pc op) }
    ensures none { IfNone result ((next : ℕ) → IsHandedOn body.now maps.now pc op next → ⊥) }
{
    if is_end(op) {
        return None;
    }
    let next = next_near(body, place, pc)?;
    match map_at(maps, next) {
        None => Some(next),
        Some(_) => None,
    }
}
