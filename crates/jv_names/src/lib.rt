//! What the indices of a constant pool name (JVMS 4.2 to 4.4): classes, array types, fields and methods, with
//! the forms of their names and descriptors.
#![tactic(auto)]

ghost use Rattle.std.specs.Prelude.{List, ℕ};
ghost use Rattle.jv_names.specs.Spellings.{IsArrayDescriptor, IsClassName};

mod classes;
mod laws;
mod members;

pub use classes::{class_at, type_at, type_text};
pub use laws::{indices_name_one, types_have_one_text};
pub use members::{field_at, method_at};

/// No name of a class is the descriptor of an array type. This does nothing, and its contract is the law.
pub fn classes_are_no_arrays()
    ensures { (text : List ℕ) → IsClassName text → IsArrayDescriptor text → ⊥ }
{}
