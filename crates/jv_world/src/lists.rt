ghost use Rattle.std.specs.Prelude.{◌↔◌, map, IsTrue, Contains};
ghost use Rattle.std.specs.List.Sorted.{IsStrictlyIncreasing};

use jv_types::ClassId;

/// Whether a list of classes by rising numbers has this one.
pub fn contains(classes: &[ClassId], class: ClassId) -> bool
    requires { IsStrictlyIncreasing (map (λ c. c.number) classes.now) }
    ensures { IsTrue result ↔ Contains classes.now class }
{
    classes.binary_search(&class).is_ok()
}
