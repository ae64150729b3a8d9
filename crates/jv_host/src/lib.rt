//! The outside of the program: where files are read and written, and where printed bytes go.
#![tactic(auto)]

mod dir_host;
mod host;
mod mem_host;
mod mem_sink;
mod sink;
mod std_sink;
mod twins;

pub use dir_host::DirHost;
pub use host::{Host, HostCall, HostFault, HostFile};
pub use mem_host::MemHost;
pub use mem_sink::MemSink;
pub use sink::{Sink, SinkFault};
pub use std_sink::StdSink;
pub use twins::has_no_twins;
