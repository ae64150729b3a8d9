//! Resolution of fields and methods, access, overriding, and which method a call selects.
#![tactic(auto)]

mod above;
mod access;
mod class_methods;
mod depth_first;
mod fields;
mod flags;
mod laws;
mod members;
mod methods;
mod nearest;
mod overriding;
mod packages;
mod references;
mod refusal;
mod selection;
mod special;
mod superinterfaces;

pub use access::{is_class_accessible, is_field_accessible, is_method_accessible};
pub use fields::{field, resolve_field};
pub use flags::{is_abstract, is_private, is_protected, is_public, is_static};
pub use laws::{calls_select_one, references_resolve_to_one};
pub use members::{declared_field, declared_method, field_shape, method_shape};
pub use methods::{interface_method, method, resolve_interface_method, resolve_method};
pub use overriding::overrides;
pub use packages::are_in_one_package;
pub use refusal::ResolveRefusal;
pub use selection::{select_interface, select_virtual};
pub use special::select_special;
