//! The law that an application finds in its collected classes what it finds in them whole.
#![tactic(auto)]

ghost use Rattle.std.specs.Prelude.{List};
ghost use Rattle.jv_types.specs.declared.shapes.Shape.{Shape};
ghost use Rattle.jv_world.specs.Worlds.{IsWorld};
ghost use Rattle.jv_fewer_members.specs.Parts.{Places};
ghost use Rattle.av_collected.specs.declared.collected.Collected.{Collected};
ghost use Rattle.av_collected.specs.Answers.{AreCollected, FailsNot};
ghost use Rattle.av_collected.specs.Conditions.{AreGiven};
ghost use Rattle.av_collected.specs.Libraries.{IsLibrary, LibraryFile};
ghost use Rattle.av_collected.specs.Naming.{Application};
ghost use Rattle.av_agreement.specs.Agreement.{AgreesWith, HaveDistinctMembers, KeepsEnough, collected_classes, whole_classes};

use jv_fewer_members::{
    calls_select_kept, fields_resolve_to_kept, interface_methods_resolve_to_kept,
    methods_resolve_to_kept,
};

/// What is collected of a library keeps enough of it for the application, where no class of the library is refused,
/// and all classes together are a world.
pub fn collected_keeps_enough()
    ensures { (given : Application) (library : List LibraryFile) (found : Collected) → AreGiven given → IsLibrary library → AreCollected given library found → FailsNot given library
        → IsWorld (whole_classes given found) → HaveDistinctMembers (whole_classes given found) → (at : Places) × KeepsEnough given (whole_classes given found) (collected_classes given found) at }
{}

/// So references of the application resolve over the collected classes to what they resolve to over the whole ones,
/// and calls select the same methods (JVMS 5.4.3, 6.5).
pub fn collected_agrees()
    ensures { (given : Application) (library : List LibraryFile) (found : Collected) → AreGiven given → IsLibrary library → AreCollected given library found → FailsNot given library
        → IsWorld (whole_classes given found) → HaveDistinctMembers (whole_classes given found) → AgreesWith given (whole_classes given found) (collected_classes given found) }
{
    fields_resolve_to_kept();
    methods_resolve_to_kept();
    interface_methods_resolve_to_kept();
    calls_select_kept();
}
