//! Laws of the rules on methods. Each function does nothing, and its contract is the law.

ghost use Rattle.std.specs.Prelude.{◌≡◌, ℕ, List, Contains};
ghost use Rattle.jv_types.specs.declared.frames.FramedBody.{FramedBody};
ghost use Rattle.jv_types.specs.declared.ids.MethodId.{MethodId};
ghost use Rattle.jv_types.specs.declared.refusal.RulePlace.{RulePlace};
ghost use Rattle.jv_types.specs.declared.rule.Rule.{Rule};
ghost use Rattle.jv_types.specs.declared.shapes.Shape.{Shape};
ghost use Rattle.jv_class.specs.declared.class_file.ClassFile.{ClassFile};
ghost use Rattle.jv_class.specs.declared.class_file.Member.{Member};
ghost use Rattle.av_stops.specs.MethodRules.{AreAccepted, FailsMethod, IsAccepted, PassesMethod, StopsAtMethod};
ghost use Rattle.av_stops.specs.Programs.{IsOfFile};

use jv_insn::{codes_have_one_body, decoded_codes_fail_nowhere};
use jv_verify::laws::methods_have_one_answer;

/// A method of a class file fails at most one rule, at one offset, and none where it is accepted. An accepted one has one
/// body and one table of frames.
pub fn methods_fail_once()
    ensures failure { (w : List Shape) (class : ClassFile) (id : MethodId) (member : Member) (rule another : Rule) (pc other : ℕ) → IsOfFile class → Contains class.methods member
        → FailsMethod w class id member rule pc → FailsMethod w class id member another other → (rule ≡ another) × (pc ≡ other) }
    ensures apart { (w : List Shape) (class : ClassFile) (id : MethodId) (member : Member) (rule : Rule) (pc : ℕ) → IsOfFile class → Contains class.methods member
        → FailsMethod w class id member rule pc → PassesMethod w class id member → ⊥ }
    ensures framed { (w : List Shape) (class : ClassFile) (id : MethodId) (member : Member) (framed other : FramedBody) → IsOfFile class
        → IsAccepted w class id member framed → IsAccepted w class id member other → framed ≡ other }
{
    codes_have_one_body();
    decoded_codes_fail_nowhere();
    methods_have_one_answer();
}

/// The methods of class files stop at one place at most, and at none where all of them pass. Those that pass are one
/// list.
pub fn methods_have_one_stop()
    ensures stop { (w : List Shape) (classes : List ClassFile) (rule another : Rule) (place other : RulePlace) → ((class : ClassFile) → Contains classes class → IsOfFile class)
        → StopsAtMethod w classes rule place → StopsAtMethod w classes another other → (rule ≡ another) × (place ≡ other) }
    ensures apart { (w : List Shape) (classes : List ClassFile) (rule : Rule) (place : RulePlace) (methods : List FramedBody) → ((class : ClassFile) → Contains classes class → IsOfFile class)
        → StopsAtMethod w classes rule place → AreAccepted w classes methods → ⊥ }
    ensures methods { (w : List Shape) (classes : List ClassFile) (methods others : List FramedBody) → ((class : ClassFile) → Contains classes class → IsOfFile class)
        → AreAccepted w classes methods → AreAccepted w classes others → methods ≡ others }
{
    methods_fail_once();
}
