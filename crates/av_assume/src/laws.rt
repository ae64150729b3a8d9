//! Laws of the library's moves and of runs. Each function does nothing, and its contract is the law.

ghost use Rattle.std.specs.Prelude.{◌<◌, ℕ, List, [], length};
ghost use Rattle.jv_types.specs.declared.frames.FramedBody.{FramedBody};
ghost use Rattle.jv_types.specs.declared.ids.MethodId.{MethodId};
ghost use Rattle.jv_types.specs.declared.shapes.Shape.{Shape};
ghost use Rattle.av_conditions.specs.Conditions.{IsStart};
ghost use Rattle.av_conditions.specs.CoreClasses.{CoreClasses};
ghost use Rattle.av_states.specs.declared.event.Choice.{Choice};
ghost use Rattle.av_states.specs.declared.event.Choice.TheVariants.{Begin, Main};
ghost use Rattle.av_states.specs.declared.event.Event.{Event};
ghost use Rattle.av_states.specs.declared.state.State.{State};
ghost use Rattle.av_model.specs.Events.{MethodCall};
ghost use Rattle.av_model.specs.Keeping.{KeepsObjects};
ghost use Rattle.av_model.specs.States.{first_state};
ghost use Rattle.av_assume.specs.LibraryMoves.{LibraryMove, calls_back};
ghost use Rattle.av_assume.specs.Runs.{Leads};

/// Each move of the library, and each run, keeps the objects that were made: their numbers, their types and their
/// labels.
pub fn runs_keep_objects()
    ensures moves { (w : List Shape) (methods : List FramedBody) (old : State) (thread : ℕ) (choice : Choice) (calls : List MethodCall) (new : State)
        → LibraryMove w methods old thread choice calls new → KeepsObjects old new }
    ensures runs { (w : List Shape) (methods : List FramedBody) (old : State) (events : List Event) (calls : List MethodCall) (new : State)
        → Leads w methods old events calls new → KeepsObjects old new }
{}

/// A thread may begin at any time.
pub fn threads_may_begin()
    ensures { (w : List Shape) (methods : List FramedBody) (old : State)
        → (new : State) × LibraryMove w methods old (length old.threads) Begin [] new }
{}

/// The first move may be that main is entered.
pub fn main_may_be_entered()
    ensures { (w : List Shape) (methods : List FramedBody) (main : MethodId) (dims : ℕ) → CoreClasses w → IsStart w methods main → 0 < dims
        → (new : State) × LibraryMove w methods (first_state main dims) 0 Main (calls_back main) new }
{}
