//! Laws of what collection is given. Each function does nothing, and its contract is the law.

ghost use Rattle.std.specs.Prelude.{◌≤◌, List, length, map};
ghost use Rattle.std.specs.Ordering.{nat_cmp};
ghost use Rattle.std.specs.Cmp.Lexicographic.{slice_cmp};
ghost use Rattle.std.specs.List.Sorted.{IsStrictlySortedBy};
ghost use Rattle.jv_class.specs.declared.class_file.ClassFile.{ClassFile};
ghost use Rattle.av_collected.specs.Conditions.{AreGiven};
ghost use Rattle.av_collected.specs.Naming.{Application};
ghost use Rattle.av_stops.specs.Applications.{IsGivenBy};
ghost use Rattle.av_given.specs.Givens.{AreOfFiles};

/// What is given of the classes of files meets what collection asks of it, where the classes are at most 20,000 and
/// rise by their names.
pub fn given_classes_may_be_collected()
    ensures { (classes : List ClassFile) (given : Application) → AreOfFiles classes → length given.shapes ≤ 20000
        → IsStrictlySortedBy (slice_cmp nat_cmp) (map (λ shape. shape.name) given.shapes) → IsGivenBy classes given → AreGiven given }
{}
