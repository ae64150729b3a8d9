//! A library as text, and a source of its shapes in memory, over which collection is tested.
//!
//! An application is a text of classes, and a text of words for what the first method of its first class names: a kind
//! of instruction (`load` a class constant, `new`, `array` of a type, `arrays`, `get` a field, `call` a method,
//! `interface` method), `catch` or `map`, and behind the sign `@` a type or a member.
#![tactic(auto)]

mod answers;
mod application;
mod asked_names;
#[cfg(test)]
mod asking;
mod bounds;
mod codes;
mod given;
mod library;
mod mem_source;
#[cfg(test)]
mod rows;

pub use answers::shown;
pub use application::{App, app_of};
pub use library::library_of;
pub use mem_source::MemSource;
