//! Which classes and members of a library an application can meet: the definition, the laws of it, and the plain
//! types that collection takes and answers.
#![tactic(auto)]

mod collected;
mod found;
mod laws;
mod method_body;
mod source;
mod stop;

pub use collected::Collected;
pub use found::ShapeFound;
pub use laws::{answers_by_rounds, collected_by_rounds, collected_is_the_least};
pub use method_body::MethodBody;
pub use source::ShapeSource;
pub use stop::CollectStop;
