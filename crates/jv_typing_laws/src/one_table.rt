//! The tables of frames that a method has.

ghost use Rattle.std.specs.Prelude.{◌≡◌, ℕ, IsTrue, List, Some};
ghost use Rattle.jv_types.specs.Bodies.{at_offset, rises_from};
ghost use Rattle.jv_types.specs.declared.ids.MethodId.{MethodId};
ghost use Rattle.jv_types.specs.declared.shapes.Shape.{Shape};
ghost use Rattle.jv_types.specs.declared.body.Body.{Body};
ghost use Rattle.jv_types.specs.declared.frames.Frame.{Frame};
ghost use Rattle.jv_pool.specs.declared.item.PoolItem.{PoolItem};
ghost use Rattle.jv_attr.specs.declared.frame.MapFrame.{MapFrame};
ghost use Rattle.jv_frames.specs.Maps.{AreMapFrames};
ghost use Rattle.jv_types.specs.declared.frames.VType.{VType};
ghost use Rattle.jv_typing.specs.TypeSafe.{IsTypeSafe, IsForced, FailsAt};

/// At most one frame is forced at an offset.
pub fn forced_frame_is_one()
    ensures { (w : List Shape) (method : MethodId) (body : Body) (maps : List (ℕ × Frame)) (pc : ℕ) (a b : Frame) → IsForced w method body maps pc a → IsForced w method body maps pc b → a ≡ b }
{}

/// In a table that types a method each frame is forced.
pub fn table_is_forced()
    ensures { (w : List Shape) (method : MethodId) (body : Body) (maps frames : List (ℕ × Frame)) (pc : ℕ) (frame : Frame) → IsTypeSafe w method body maps frames → at_offset pc frames ≡ Some frame → IsForced w method body maps pc frame }
{}

/// A method has at most one table by its maps (JVMS 4.10.1.6).
pub fn table_is_one()
    ensures { (w : List Shape) (method : MethodId) (body : Body) (maps a b : List (ℕ × Frame)) → IsTypeSafe w method body maps a → IsTypeSafe w method body maps b → a ≡ b }
{}

/// The frames of a stack map stand at rising offsets (JVMS 4.7.4).
pub fn map_frames_rise()
    ensures { (pool : List PoolItem) (body : Body) (base : ℕ) (before : List VType) (written : List MapFrame) (rows : List (ℕ × Frame)) → AreMapFrames pool body base before written rows → IsTrue (rises_from base rows) }
{}

/// A method with a table fails at no offset.
pub fn table_fails_nowhere()
    ensures { (w : List Shape) (method : MethodId) (body : Body) (maps frames : List (ℕ × Frame)) (pc : ℕ) → IsTypeSafe w method body maps frames → FailsAt w method body maps pc → ⊥ }
{}
