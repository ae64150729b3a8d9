//! Laws of what is collected. Each function does nothing, and its contract is the law.

ghost use Rattle.std.specs.Prelude.{◌≡◌, ◌↔◌, ℕ, List};
ghost use Rattle.jv_types.specs.declared.quantity.Quantity.{Quantity};
ghost use Rattle.jv_types.specs.declared.rule.Rule.{Rule};
ghost use Rattle.av_collected.specs.declared.collected.Collected.{Collected as CollectedValue};
ghost use Rattle.av_collected.specs.Answers.{AreCollected, FailsNot};
ghost use Rattle.av_collected.specs.Libraries.{IsLibrary, LibraryFile};
ghost use Rattle.av_collected.specs.Naming.{Application};
ghost use Rattle.av_collected.specs.Rules.{IsCollected, Item};
ghost use Rattle.av_app_files.specs.Folders.{Folders};
ghost use Rattle.av_stops.specs.CollectedRules.{FailsCollection};
ghost use Rattle.av_stops.specs.LibraryFolders.{PassesLimit};
ghost use Rattle.av_one_application.specs.Same.{IsSameApplication, IsSameLibrary};

use av_collected::collected_by_rounds;

/// Where applications and libraries are the same, the same classes and members are collected.
pub fn same_applications_collect_alike()
    ensures { (given other : Application) (library others : List LibraryFile) → IsSameApplication given other → IsSameLibrary library others
        → (item : Item) → IsCollected given library item ↔ IsCollected other others item }
{
    collected_by_rounds();
}

/// So there is one answer at most: the same limits pass, at most one rule fails, at one class name, and none where no class
/// is refused; and what is collected is one list of classes, with one list of their collected members and one greatest dimension.
pub fn collection_is_one()
    ensures limits { (folders : Folders) (given other : Application) (library others : List LibraryFile) (quantity : Quantity)
        → IsSameApplication given other → IsSameLibrary library others
        → PassesLimit folders given library quantity → PassesLimit folders other others quantity }
    ensures failure { (given other : Application) (library others : List LibraryFile) (rule another : Rule) (name named : List ℕ)
        → IsSameApplication given other → IsSameLibrary library others
        → FailsCollection given library rule name → FailsCollection other others another named → (rule ≡ another) × (name ≡ named) }
    ensures apart { (given other : Application) (library others : List LibraryFile) (rule : Rule) (name : List ℕ)
        → IsSameApplication given other → IsSameLibrary library others
        → FailsCollection given library rule name → FailsNot other others → ⊥ }
    ensures found { (given other : Application) (library others : List LibraryFile) (found another : CollectedValue) → IsLibrary library
        → IsSameApplication given other → IsSameLibrary library others
        → AreCollected given library found → AreCollected other others another → found ≡ another }
{
    same_applications_collect_alike();
}
