//! Laws of the classes of a stand-in, kind by kind. Each function does nothing, and its contract is the law.

ghost use Rattle.std.specs.Prelude.{◌≡◌, ℕ, List};
ghost use Rattle.jv_types.specs.declared.shapes.Shape.{Shape};
ghost use Rattle.av_standin_of.specs.Classes.{IsOfAny, IsOfCollected, IsOfPackage, MadeClass};

/// A collected class has one stand-in.
pub fn collected_classes_have_one()
    ensures { (class : Shape) (a b : MadeClass) → IsOfCollected class a → IsOfCollected class b → a ≡ b }
{}

/// A class has one class of any object of it.
pub fn any_classes_have_one()
    ensures { (w : List Shape) (c : ℕ) (class : Shape) (a b : MadeClass) → IsOfAny w c class a → IsOfAny w c class b → a ≡ b }
{}

/// A package has one class with its items.
pub fn parts_have_one()
    ensures { (w : List Shape) (dims : ℕ) (folder : List ℕ) (a b : MadeClass) → IsOfPackage w dims folder a → IsOfPackage w dims folder b → a ≡ b }
{}
