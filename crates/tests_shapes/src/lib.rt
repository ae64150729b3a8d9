//! Worlds of classes as text, and rows that ask something of a world.
//!
//! A class is a word of parts between commas: its name; `C` for a class, `F` for a final one, `A` for an abstract
//! one, `P` for one that isn't public, or `I` for an interface; its superclass, nothing for Object, or `-` for
//! none; and then its interfaces and members. A member has a mark for its access (`+` public, `#` protected, `~`
//! package-private, `-` private), one for its kind (`s` static, `a` abstract, `f` final, `c` static and final, `.`
//! none of these), its name, and its descriptor behind a colon, or none for a method `()V`. A class whose name
//! begins with `java/` or `lib/` is of the library, every other one of the application.
#![tactic(auto)]

mod library;
mod names;
mod places;
mod rows;
mod shapes;
mod types;
mod worlds;

pub use names::{field_ref_of, member_of, method_ref_of, name_of, type_of};
pub use places::{are_classes, are_methods, class_of, is_class, is_method, method_at, method_of};
pub use rows::{Asked, first_wrong, first_wrong_in};
pub use shapes::shape_of;
pub use types::{frame_of, is_frame, types_of, vtype_of, words_of};
pub use worlds::{build, shapes_of};
