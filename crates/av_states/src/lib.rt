//! The plain types of the machine: what a running application holds, and the events that lead from one state to
//! the next.
#![tactic(auto)]

mod event;
mod held;
mod refusal;
mod run_type;
mod state;

pub use event::{Choice, Event};
pub use held::Held;
pub use refusal::StepRefusal;
pub use run_type::RunType;
pub use state::{Activation, CellKey, HeapObject, State, ThreadState};
