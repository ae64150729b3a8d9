//! Constant tables: rows in order of their keys; and opcodes, tags and codes by name.
#![tactic(auto)]

pub mod atypes;
mod class_tables;
mod code_tables;
pub mod frame_tags;
pub mod ops;
mod table;
pub mod tags;
pub mod vtype_tags;

pub use class_tables::{
    FrameGroup, FrameRow, TagRow, TypeRow, frame_kind, frame_kinds, pool_tag, pool_tags, type_tag,
    type_tags,
};
pub use code_tables::{
    Cell, Form, Kind, OpRow, newarray_code, newarray_codes, opcode, opcodes, opcodes_are_numbered,
};
pub use table::Table;
