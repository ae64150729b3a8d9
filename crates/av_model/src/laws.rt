//! Laws of the machine. Each function does nothing, and its contract is the law.

ghost use Rattle.std.specs.Prelude.{◌≡◌, ◌==◌, ℕ, IsTrue, List, [], None, Some, map, Contains};
ghost use Rattle.jv_types.specs.declared.body.Handler.{Handler};
ghost use Rattle.jv_types.specs.declared.frames.FramedBody.{FramedBody};
ghost use Rattle.jv_types.specs.declared.ids.ClassId.{ClassId};
ghost use Rattle.jv_table.specs.declared.ops.TheConstants.{INVOKESTATIC};
ghost use Rattle.jv_types.specs.declared.instruction.Arg.TheVariants.{Method};
ghost use Rattle.jv_types.specs.declared.instruction.Insn.{Insn};
ghost use Rattle.jv_types.specs.declared.references.MethodRef.{MethodRef};
ghost use Rattle.jv_types.specs.declared.shapes.MethodShape.{MethodShape};
ghost use Rattle.jv_types.specs.declared.shapes.Shape.{Shape};
ghost use Rattle.jv_insn.specs.Effects.{effect_of};
ghost use Rattle.jv_insn.specs.KindSafe.{Covers, IsKindSafe, entry_words, is_static, method_of};
ghost use Rattle.av_states.specs.declared.held.Held.{Held};
ghost use Rattle.av_states.specs.declared.event.Choice.{Choice};
ghost use Rattle.av_states.specs.declared.event.Choice.TheVariants.{Go, Raise};
ghost use Rattle.av_states.specs.declared.run_type.RunType.{RunType, Lib};
ghost use Rattle.av_states.specs.declared.state.Activation.{Activation};
ghost use Rattle.av_states.specs.declared.state.State.{State};
ghost use Rattle.av_model.specs.AppSteps.{AppStep};
ghost use Rattle.av_model.specs.Events.{MethodCall};
ghost use Rattle.av_model.specs.Keeping.{KeepsObjects};
ghost use Rattle.av_model.specs.LibraryTypes.{IsLibraryClass, IsRaised, IsUnseenClass, NeverBelowApplication};
ghost use Rattle.av_model.specs.NeverWanting.{HasKinds, IsNotWanting, entry_spot, handler_spot, spot_after};
ghost use Rattle.av_model.specs.Operands.{HasOperands, HoldCells, kind_of_held};
ghost use Rattle.av_model.specs.RunTypes.{IsOfClass};
ghost use Rattle.av_model.specs.Spots.{Spot, GoesTo, IsInsnAt, StandsAt};
ghost use Rattle.av_model.specs.Words.{is_word_insn};

/// Each step keeps the objects that were made: their numbers, their types and their labels.
pub fn steps_keep_objects()
    ensures { (w : List Shape) (methods : List FramedBody) (old : State) (thread : ℕ) (choice : Choice) (calls : List MethodCall) (new : State)
        → AppStep w methods old thread choice calls new → KeepsObjects old new }
{}

/// An instruction of a thread that throws nothing may throw a new object of the library's, of whichever class at or
/// below Throwable, also where it is wanting.
pub fn raises_are_steps()
    ensures { (w : List Shape) (methods : List FramedBody) (old : State) (thread : ℕ) (below : List Activation) (spot : Spot) (insn : Insn) (type : RunType)
        → StandsAt methods old thread None below spot → IsInsnAt spot insn → IsRaised w type
        → (new : State) × AppStep w methods old thread (Raise type) [] new }
{}

/// In a world in which no class of the library is below one of the application, each class and interface of which an
/// object of a class that nobody sees is an instance is the library's.
pub fn unseen_types_stay_above()
    ensures { (w : List Shape) (low : ClassId) (ifs : List ClassId) (d : ClassId) → NeverBelowApplication w → IsUnseenClass w low ifs
        → IsOfClass w (Lib low ifs) d → IsLibraryClass w d }
{}

/// No instruction is wanting: in a frame whose words are of the kinds that a kind safe method's frame says there, an
/// instruction stands, and it finds its operands.
pub fn instructions_are_not_wanting()
    ensures { (w : List Shape) (spot : Spot) → IsKindSafe w spot.framed → HasKinds spot → IsNotWanting spot }
{}

/// Frames stay of the right kinds: as an instruction goes on in its method and gives words of the kinds of its cells, as a
/// kind safe method is entered on words of the kinds of its receiver and parameters, or on those that a call of its
/// descriptor takes, and as an object is caught.
pub fn frames_keep_their_kinds()
    ensures goes_on { (w : List Shape) (spot : Spot) (insn : Insn) (given : List Held) (branch to : ℕ) → IsKindSafe w spot.framed → HasKinds spot
        → IsInsnAt spot insn → HoldCells (effect_of insn).gives given → GoesTo spot insn branch to → HasKinds (spot_after spot insn given to) }
    ensures entered { (w : List Shape) (framed : FramedBody) (shape : MethodShape) (words : List Held) → IsKindSafe w framed
        → method_of w framed.method ≡ Some shape → map kind_of_held words ≡ (entry_words shape).locals → HasKinds (entry_spot framed words) }
    ensures called { (w : List Shape) (framed : FramedBody) (shape : MethodShape) (insn : Insn) (r : MethodRef) (taken : List Held) → IsKindSafe w framed
        → method_of w framed.method ≡ Some shape → insn.arg ≡ Method r → shape.desc ≡ r.desc → is_static shape ≡ (insn.op == INVOKESTATIC)
        → HoldCells (effect_of insn).takes taken → HasKinds (entry_spot framed taken) }
    ensures caught { (w : List Shape) (spot : Spot) (handler : Handler) (thrown : ℕ) → IsKindSafe w spot.framed → HasKinds spot
        → Contains spot.framed.body.handlers handler → Covers handler spot.pc → HasKinds (handler_spot spot handler thrown) }
{}

/// An instruction that only moves words, and isn't wanting, goes on to each of its places: either branch may be taken.
pub fn words_go_on()
    ensures { (w : List Shape) (methods : List FramedBody) (old : State) (thread : ℕ) (below : List Activation) (spot : Spot) (insn : Insn)
        (taken : List Held) (branch to : ℕ) → StandsAt methods old thread None below spot → IsInsnAt spot insn → HasOperands insn spot.words taken
        → IsTrue (is_word_insn insn) → GoesTo spot insn branch to → (new : State) × AppStep w methods old thread (Go branch 0) [] new }
{}
