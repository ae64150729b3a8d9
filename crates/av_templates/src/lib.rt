//! Parts of the code of a stand-in's methods, as they are put into a builder.
#![tactic(auto, using(crate::proofs::Adding::with_both))]

mod constructors;
mod frames;
mod insns;
mod methods;
mod parts;
mod putting;
mod values;
mod which;

pub use constructors::{extra_code, makes_fresh, method_code, plain_code};
pub use frames::frame_of;
pub use insns::{
    aload, call_extra, checkcast, extra_desc, get_known, holder, library_name, plain, put_fresh,
    put_known,
};
pub use methods::{entry_locals, locals_of, template};
pub use parts::{answers, calls_super, hand_over, hand_over_params, throws};
pub use putting::{Locals, copied, pushed, put, put_branch, single, with_descs};
pub use values::{
    known_as, object_vtype, prim_vtype, return_op, throwable_name, throwable_vtype, value_of,
    values_of, zero_op,
};
pub use which::{is_abstract, is_constructor, is_fresh_maker};
