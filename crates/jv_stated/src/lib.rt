//! What bytes state, as it is decided: whether they are the text of a class file (JVMS 4.1), and which shape that class
//! has. The functions are laws: each does nothing, and its contract is the law.
#![tactic(auto)]

ghost use Rattle.std.specs.Prelude.{◌≡◌, ◌⊎◌, ℕ, Bool, List};
ghost use Rattle.jv_types.specs.declared.shapes.Shape.{Shape};
ghost use Rattle.jv_class.specs.declared.class_file.ClassFile.{ClassFile};
ghost use Rattle.jv_class.specs.ClassTexts.{IsClass, ClassText};
ghost use Rattle.jv_class.specs.Shapes.{IsShapeOf};

/// Bytes are the text of a class, or they are that of none.
pub fn class_texts_are_decided()
    ensures { (bytes : List ℕ) → ((class : ClassFile) × ClassText class bytes) ⊎ ((class : ClassFile) → ¬ ClassText class bytes) }
{}

/// A class has a shape, and no other one.
pub fn classes_have_one_shape()
    ensures some { (class : ClassFile) (application : Bool) → IsClass class → (shape : Shape) × IsShapeOf class application shape }
    ensures one { (class : ClassFile) (application : Bool) (shape other : Shape) → IsShapeOf class application shape → IsShapeOf class application other → shape ≡ other }
{}
