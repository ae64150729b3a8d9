//! The constant pool of a class file: its items by index, its text, and a writer that adds items.
#![tactic(auto)]

mod fault;
mod fields;
mod item;
mod laws;
mod link;
mod pool;
mod pool_writer;
mod reader;
mod text;
mod write;

pub use fault::{BadPool, PoolRefusal, WriteRefusal};
pub use item::PoolItem;
pub use laws::items_are_told_apart;
pub use pool::Pool;
pub use pool_writer::PoolWriter;
pub use reader::{one_pool_text, read_pool};
pub use write::put_pool;
