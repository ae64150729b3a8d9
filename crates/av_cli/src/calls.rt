mod answer;
mod command;
mod graph;
mod mains;
mod saying;

pub use answer::Answer;
pub use command::print_class;
pub use graph::{GraphError, call_graph};
pub use saying::write_answer;
