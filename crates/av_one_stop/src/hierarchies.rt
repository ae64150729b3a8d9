//! Laws of supertypes. Each function does nothing, and its contract is the law.

ghost use Rattle.std.specs.Prelude.{◌≡◌, ℕ, List};
ghost use Rattle.jv_types.specs.declared.rule.Rule.{Rule};
ghost use Rattle.jv_types.specs.declared.shapes.Shape.{Shape};
ghost use Rattle.av_hierarchy.specs.Hierarchy.{FailsHierarchy, PassesHierarchy};

/// Of some classes at most one rule on supertypes fails, at one class name, and none where all of them are passed.
pub fn hierarchies_fail_once()
    ensures failure { (w : List Shape) (rule another : Rule) (name named : List ℕ) → FailsHierarchy w rule name → FailsHierarchy w another named → (rule ≡ another) × (name ≡ named) }
    ensures apart { (w : List Shape) (rule : Rule) (name : List ℕ) → FailsHierarchy w rule name → PassesHierarchy w → ⊥ }
{}
