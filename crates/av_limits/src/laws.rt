//! Laws on limits. Each function does nothing, and its contract is the law.

ghost use Rattle.std.specs.Prelude.{ℕ, List, Contains};
ghost use Rattle.jv_types.specs.declared.quantity.Quantity.{Quantity};
ghost use Rattle.av_app_files.specs.Folders.{Folders};
ghost use Rattle.av_asked.specs.Asking.{AreDistinct, AreThose};
ghost use Rattle.av_collected.specs.Answers.{AreTooMany};
ghost use Rattle.av_collected.specs.Libraries.{LibraryFile};
ghost use Rattle.av_collected.specs.Naming.{Application};
ghost use Rattle.av_collected.specs.Rules.{ClassNamed, IsCollected};
ghost use Rattle.av_library.specs.Counting.{PassNone, PassesBy};
ghost use Rattle.av_stops.specs.LibraryFolders.{IsLibraryIn, PassesLimit, PassesNoLimit};

/// A quantity that passes its limit by the files of different collected classes is one that passes its limit in
/// collection. Where the files of all collected classes pass none, and there are not too many of them, none passes.
pub fn counted_limits_are_limits()
    ensures passes { (folders : Folders) (given : Application) (library : List LibraryFile) (names : List (List ℕ)) (quantity : Quantity)
        → AreDistinct names → ((name : List ℕ) → Contains names name → IsCollected given library (ClassNamed name))
        → PassesBy folders.files folders.lib names quantity → PassesLimit folders given library quantity }
    ensures none { (folders : Folders) (given : Application) (library : List LibraryFile) (names : List (List ℕ))
        → AreThose (λ name. IsCollected given library (ClassNamed name)) names → PassNone folders.files folders.lib names
        → ¬ AreTooMany given library → PassesNoLimit folders given library }
{}
