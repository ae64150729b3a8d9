ghost use Rattle.std.specs.Prelude.{map, nat_eq};
ghost use Rattle.std.specs.List.{IsDistinct};
ghost use Rattle.std.specs.List.Sorted.{IsPermutation, IsStrictlySortedBy};
ghost use Rattle.std.specs.Ordering.{nat_cmp};
ghost use Rattle.std.specs.Cmp.Lexicographic.{pointwise, slice_cmp};

use crate::app_class::AppClass;

/// Classes in order of their names' bytes. This takes no memory.
pub fn in_name_order(classes: Vec<AppClass>) -> Vec<AppClass>
    requires { IsDistinct (pointwise nat_eq) (map (λ class. class.shape.name) classes.items) }
    ensures same { IsPermutation classes.items result.items }
    ensures rising { IsStrictlySortedBy (slice_cmp nat_cmp) (map (λ class. class.shape.name) result.items) }
{
    let mut sorted = classes;
    sorted.sort_unstable_by(|one, other| one.shape.name.cmp(&other.shape.name));
    sorted
}
