//! Laws of the definitions that the contracts cite. Each function does nothing, and its contract is the
//! law.

ghost use Rattle.std.specs.Prelude.{◌≡◌, ◌≤◌, ◌-◌, ℕ, false, List, Some, length};
ghost use Rattle.jv_types.specs.declared.ids.MethodId.{MethodId};
ghost use Rattle.jv_types.specs.declared.body.Body.{Body};
ghost use Rattle.jv_pool.specs.declared.item.PoolItem.{PoolItem};
ghost use Rattle.jv_attr.specs.declared.attr.CodeAttr.{CodeAttr};
ghost use Rattle.jv_attr.specs.declared.frame.MapFrame.{MapFrame};
ghost use Rattle.jv_attr.specs.FrameText.{IsFrame};
ghost use Rattle.jv_names.specs.PoolNames.{IsNamedPool};
ghost use Rattle.jv_frames.specs.Maps.{AreFramesOf, FailsFirstAt, HasLocalsToChop, HasTypes};
ghost use Rattle.jv_types.specs.declared.shapes.Shape.{Shape};
ghost use Rattle.jv_types.specs.declared.frames.VType.{VType};
ghost use Rattle.jv_types.specs.declared.frames.Frame.{Frame};
ghost use Rattle.jv_world.specs.Worlds.{IsWorld};
ghost use Rattle.jv_frames.specs.Types.{is_array};
ghost use Rattle.jv_frames.specs.Assignable.{IsAssignable, IsFrameAssignable};

/// Each type is assignable to itself, and each frame (JVMS 4.10.1.2).
pub fn assignability_is_reflexive()
    ensures types { (w : List Shape) (a : VType) → IsAssignable w a a }
    ensures frames { (w : List Shape) (f : Frame) → IsFrameAssignable w f f }
{}

/// What is assignable to a type is assignable to what this is assignable to, unless it is an array: an array
/// is assignable to Object, and Object to each interface, but the array to three classes and interfaces
/// alone (JVMS 4.10.1.2).
pub fn assignability_is_transitive()
    ensures { (w : List Shape) (a b c : VType) → IsWorld w → is_array a ≡ false → IsAssignable w a b → IsAssignable w b c → IsAssignable w a c }
{}

/// A method's map has one list of frames at most, or fails first at one offset, and not both (JVMS 4.7.4).
pub fn maps_have_one_answer()
    ensures frames { (w : List Shape) (id : MethodId) (pool : List PoolItem) (code : CodeAttr) (body : Body) (rows others : List (ℕ × Frame))
        → AreFramesOf w id pool code body rows → AreFramesOf w id pool code body others → rows ≡ others }
    ensures bad { (w : List Shape) (id : MethodId) (pool : List PoolItem) (code : CodeAttr) (body : Body) (pc other : ℕ)
        → FailsFirstAt w id pool code body pc → FailsFirstAt w id pool code body other → pc ≡ other }
    ensures apart { (w : List Shape) (id : MethodId) (pool : List PoolItem) (code : CodeAttr) (body : Body) (rows : List (ℕ × Frame)) (pc : ℕ)
        → AreFramesOf w id pool code body rows → FailsFirstAt w id pool code body pc → ⊥ }
{}

/// A frame that is written as JVMS 4.7.4 says, over a pool whose classes have names of classes or arrays, has
/// types, unless it takes more local variables away than there are. So a map fails for no other cause than
/// this one, an offset that is at no instruction, too many words, or an offset that is at no `new`.
pub fn written_frames_have_types()
    ensures { (pool : List PoolItem) (before : List VType) (f : MapFrame) → IsNamedPool pool → IsFrame pool f → HasLocalsToChop before f
        → (locals : List VType) × (stack : List VType) × HasTypes pool before f locals stack }
{}
