//! The plain types that every crate shares: names, lists, access flags, and what a refusal says.
#![tactic(auto)]

mod access;
mod body;
mod copied;
mod copied_in;
mod desc;
mod fact;
mod frames;
mod ids;
mod instruction;
mod label;
mod name;
mod name_forms;
mod numbers;
mod place;
mod quantity;
mod raw_handler;
mod references;
mod refusal;
mod rule;
mod seq;
mod shapes;

pub use access::Access;
pub use body::{Body, Handler};
pub use copied::Copied;
pub use copied_in::CopiedIn;
pub use desc::{Desc, MethodDesc, PrimType as Prim, RefType};
pub use fact::{CallFrom, Fact};
pub use frames::{Frame, FramedBody, VType};
pub use ids::{ClassId, FieldId, MethodId};
pub use instruction::{Arg, Const, Insn};
pub use label::{Label, LibBase};
pub use name::Name;
pub use name_forms::{class_names_are_parts, is_class_name, is_method_name, is_part};
pub use place::Place;
pub use quantity::Quantity;
pub use raw_handler::RawHandler;
pub use references::{FieldRef, MethodRef};
pub use refusal::{Refusal, RulePlace};
pub use rule::Rule;
pub use seq::Seq;
pub use shapes::{FieldShape, MethodShape, Shape};
