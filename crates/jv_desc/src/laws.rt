//! Laws of the definitions that the contracts cite. Each function does nothing, and its contract is the
//! law.

ghost use Rattle.std.specs.Prelude.{◌≡◌, ◌++◌, ℕ, List};
ghost use Rattle.jv_types.specs.declared.desc.Desc.{Desc};
ghost use Rattle.jv_types.specs.declared.desc.MethodDesc.{MethodDesc};
ghost use Rattle.jv_desc.specs.Texts.{IsDesc, desc_text, IsFieldText, IsMethodText};

/// A field descriptor stands for one type, and a type has at most one descriptor.
pub fn fields_have_one_text()
    ensures reading { (bytes : List ℕ) (d e : Desc) → IsFieldText bytes d → IsFieldText bytes e → d ≡ e }
    ensures text { (a b : List ℕ) (d : Desc) → IsFieldText a d → IsFieldText b d → a ≡ b }
{}

/// A method descriptor stands for one method, and a method has at most one descriptor.
pub fn methods_have_one_text()
    ensures reading { (bytes : List ℕ) (d e : MethodDesc) → IsMethodText bytes d → IsMethodText bytes e → d ≡ e }
    ensures text { (a b : List ℕ) (d : MethodDesc) → IsMethodText a d → IsMethodText b d → a ≡ b }
{}

/// No field descriptor begins another.
pub fn field_fronts_agree()
    ensures { (d e : Desc) (x y : List ℕ) → IsDesc d → IsDesc e → desc_text d ++ x ≡ desc_text e ++ y → (d ≡ e) × (x ≡ y) }
{}
