//! Laws of collection. Each function does nothing, and its contract is the law.

ghost use Rattle.std.specs.Prelude.{◌↔◌, ℕ, Bool, IsTrue, List};
ghost use Rattle.av_collected.specs.declared.collected.Collected.{Collected as CollectedValue};
ghost use Rattle.av_collected.specs.Answers.{AreCollected, AreTooMany, HasUnfitFile, IsMissing, NamesApplication};
ghost use Rattle.av_collected.specs.Libraries.{IsLibrary, LibraryFile};
ghost use Rattle.av_collected.specs.Naming.{Application};
ghost use Rattle.av_collected.specs.Rounds.{IsInside, IsReadOut};
ghost use Rattle.av_collected.specs.Rules.{IsClosed, IsCollected, Item};

use jv_two_worlds::{
    fields_resolve_alike, interface_methods_resolve_alike, methods_resolve_alike, worlds_stand_in,
};

/// What is collected is closed under the rules, and inside every closed set.
pub fn collected_is_the_least()
    ensures closed { (given : Application) (library : List LibraryFile) → IsClosed given library (IsCollected given library) }
    ensures least { (given : Application) (library : List LibraryFile) (set : Item → Bool) → IsClosed given library (λ item. IsTrue (set item))
        → (item : Item) → IsCollected given library item → IsTrue (set item) }
{}

/// What is collected over a part of a library is collected over the whole of it. Where just the files of all classes
/// that are collected over the part were read, the whole library collects the same.
pub fn collected_by_rounds()
    ensures grows { (given : Application) (part library : List LibraryFile) → IsInside part library → (item : Item) → IsCollected given part item → IsCollected given library item }
    ensures ends { (given : Application) (part library : List LibraryFile) → IsLibrary library → IsReadOut given part library
        → (item : Item) → IsCollected given part item ↔ IsCollected given library item }
{
    worlds_stand_in();
    fields_resolve_alike();
    methods_resolve_alike();
    interface_methods_resolve_alike();
}

/// So it is with what is answered of them: where just the files of all classes were read that are collected over what
/// was read, the refusals and the collected classes over it are those over the whole library. A count of classes that
/// passes its limit over a part passes it over the whole.
pub fn answers_by_rounds()
    ensures unfit { (given : Application) (part library : List LibraryFile) → IsLibrary library → IsReadOut given part library
        → (name : List ℕ) → HasUnfitFile given part name ↔ HasUnfitFile given library name }
    ensures missing { (given : Application) (part library : List LibraryFile) → IsLibrary library → IsReadOut given part library
        → (name : List ℕ) → IsMissing given part name ↔ IsMissing given library name }
    ensures apart { (given : Application) (part library : List LibraryFile) → IsLibrary library → IsReadOut given part library
        → (class : List ℕ) → NamesApplication given part class ↔ NamesApplication given library class }
    ensures collected { (given : Application) (part library : List LibraryFile) → IsLibrary library → IsReadOut given part library
        → (found : CollectedValue) → AreCollected given part found ↔ AreCollected given library found }
    ensures many { (given : Application) (part library : List LibraryFile) → IsInside part library → AreTooMany given part → AreTooMany given library }
{
    collected_by_rounds();
}
