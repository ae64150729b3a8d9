//! Laws of the classes of an application and of what was collected for it. Each function does nothing, and its
//! contract is the law.

ghost use Rattle.std.specs.Prelude.{ℕ, List};
ghost use Rattle.jv_class.specs.declared.class_file.ClassFile.{ClassFile};
ghost use Rattle.jv_world.specs.Worlds.{AreNumbered, IsAbsent, IsWorld};
ghost use Rattle.av_agreement.specs.Agreement.{HaveDistinctMembers};
ghost use Rattle.av_collected.specs.declared.collected.Collected.{Collected};
ghost use Rattle.av_collected.specs.Naming.{Application};
ghost use Rattle.av_stages.specs.Stages.{IsCollectedOfSome, IsKnown};
ghost use Rattle.av_stops.specs.FirstStops.{program_world, whole_world};

use av_agreement::collected_keeps_enough;
use jv_desc::laws::{fields_have_one_text, methods_have_one_text};
use jv_fewer_members::parts_are_worlds;

/// Of the whole classes each supertype is among them, and none declares two fields, or two methods, of one name and
/// descriptor (JVMS 4.1, 4.5, 4.6).
pub fn whole_classes_are_complete()
    ensures numbered { (classes : List ClassFile) (given : Application) (found : Collected) → IsKnown classes given → IsCollectedOfSome given found
        → AreNumbered (whole_world given found) }
    ensures there { (given : Application) (found : Collected) → IsCollectedOfSome given found → (name : List ℕ) → ¬ IsAbsent (whole_world given found) name }
    ensures distinct { (classes : List ClassFile) (given : Application) (found : Collected) → IsKnown classes given → IsCollectedOfSome given found
        → HaveDistinctMembers (whole_world given found) }
{
    fields_have_one_text();
    methods_have_one_text();
}

/// Where the whole classes are a world, so are those of the program: the classes of the application, and the collected
/// ones with their collected members alone (JVMS 5.3.5).
pub fn programs_have_worlds()
    ensures { (classes : List ClassFile) (given : Application) (found : Collected) → IsKnown classes given → IsCollectedOfSome given found
        → IsWorld (whole_world given found) → IsWorld (program_world given found) }
{
    whole_classes_are_complete();
    collected_keeps_enough();
    parts_are_worlds();
}
