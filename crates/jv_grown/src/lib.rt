//! Constant pools that grow by items, as `PoolWriter::add` makes them: what stays so. The laws do nothing.
#![tactic(auto)]

mod laws;

pub use laws::pools_grow_by_items;
