//! Instructions: what each takes and gives, and the methods whose frames fit that; and codes, which are
//! decoded and encoded.
#![tactic(auto)]

mod constants;
mod decoder;
mod encoder;
mod entries;
mod fault;
mod handlers;
mod insns;
mod laws;
mod layout;
mod locals;
mod operands;
mod places;
mod reader;
mod sizes;
mod switches;
mod word_laws;
mod writing;
mod written;

pub use decoder::decode;
pub use encoder::encode;
pub use fault::{BadCode, EncodeRefusal};
pub use laws::{
    codes_fail_for_causes, codes_have_one_body, decoded_bodies_are_spelled,
    decoded_bodies_keep_the_form, decoded_codes_fail_nowhere, decoded_operands_are_of_the_layout,
    fitting_instructions_may_stand, held_cells_have_kinds, kind_safe_instructions_are_of_their_row,
    kind_safe_places_are_instructions, rows_are_effects, spelled_bodies_may_be_encoded,
};
pub use locals::{is_load, is_store, local_of};
pub use sizes::{size_at, sizes_are_lengths};
pub use word_laws::{kinds_are_kept, words_are_left};
pub use written::{Operands, Written};
