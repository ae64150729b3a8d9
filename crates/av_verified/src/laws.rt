//! Laws of the lines. Each function does nothing, and its contract is the law.

ghost use Rattle.std.specs.Prelude.{◌≡◌, ℕ, List};
ghost use Rattle.jv_types.specs.declared.shapes.MethodShape.{MethodShape};
ghost use Rattle.jv_desc.specs.Texts.{IsMethodDesc};
ghost use Rattle.av_verified.specs.Lines.{method_line};

/// Methods have one line only where they have one class, one name and one descriptor.
pub fn lines_tell_methods_apart()
    ensures { (class other : List ℕ) (method next : MethodShape) → IsMethodDesc method.desc → IsMethodDesc next.desc
        → method_line class method ≡ method_line other next → (class ≡ other) × (method.name ≡ next.name) × (method.desc ≡ next.desc) }
{}
