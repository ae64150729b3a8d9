//! Of two folders one thing is told: where a refusal or a passed limit comes first, it is the only one but for which of
//! several limits is named, and no program is accepted. The functions are laws: each does nothing, and its contract is
//! the law.
#![tactic(auto)]

mod files;
mod hierarchies;
mod methods;
mod stops;

pub use files::files_have_one_stop;
pub use hierarchies::hierarchies_fail_once;
pub use methods::{methods_fail_once, methods_have_one_stop};
pub use stops::{first_stop_is_one, first_stops_fit, stopped_is_no_program};
