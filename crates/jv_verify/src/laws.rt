//! Laws of what the verifier answers. Each function does nothing, and its contract is the law.

ghost use Rattle.std.specs.Prelude.{◌≡◌, ℕ, List};
ghost use Rattle.jv_types.specs.declared.ids.MethodId.{MethodId};
ghost use Rattle.jv_types.specs.declared.rule.Rule.{Rule};
ghost use Rattle.jv_types.specs.declared.shapes.Shape.{Shape};
ghost use Rattle.jv_types.specs.declared.body.Body.{Body};
ghost use Rattle.jv_types.specs.declared.frames.FramedBody.{FramedBody};
ghost use Rattle.jv_class.specs.declared.class_file.ClassFile.{ClassFile};
ghost use Rattle.jv_class.specs.ClassTexts.{AreDistinct};
ghost use Rattle.jv_insn.specs.KindSafe.{IsKindSafe};
ghost use Rattle.jv_typing.specs.TypeSafe.{TypeSafe};
ghost use Rattle.jv_verify.specs.Verified.{IsVerified, IsUnverified};

/// A verified method is typed by its table (JVMS 4.10.1.6), and so each of its instructions finds its operands:
/// the frames fit the kinds of words that it takes and leaves.
pub fn verified_methods_are_kind_safe()
    ensures typed { (w : List Shape) (class : ClassFile) (id : MethodId) (body : Body) (framed : FramedBody) → IsVerified w class id body framed → TypeSafe w framed }
    ensures kinds { (w : List Shape) (class : ClassFile) (id : MethodId) (body : Body) (framed : FramedBody) → IsVerified w class id body framed → IsKindSafe w framed }
{}

/// A method has one table at most, where it has one there is no cause to refuse it, and else there is one rule and
/// one offset.
pub fn methods_have_one_answer()
    ensures table { (w : List Shape) (class : ClassFile) (id : MethodId) (body : Body) (framed other : FramedBody) → AreDistinct class.pool class.methods
        → IsVerified w class id body framed → IsVerified w class id body other → framed ≡ other }
    ensures apart { (w : List Shape) (class : ClassFile) (id : MethodId) (body : Body) (framed : FramedBody) (rule : Rule) (pc : ℕ) → AreDistinct class.pool class.methods
        → IsVerified w class id body framed → IsUnverified w class id body rule pc → ⊥ }
    ensures refusal { (w : List Shape) (class : ClassFile) (id : MethodId) (body : Body) (rule another : Rule) (pc other : ℕ) → AreDistinct class.pool class.methods
        → IsUnverified w class id body rule pc → IsUnverified w class id body another other → (rule ≡ another) × (pc ≡ other) }
{}
