ghost use Rattle.calls_lines.specs.First.Covered.{LinesCoverRuns};

mod joining;
mod reporting;
mod texts;

pub use reporting::{class_lines, fact_lines};

/// The law of coverage: the lines of facts that are closed under the rules have each call of each run, and
/// each object that stands after it in a frame, in a static field or in the field of an object.
pub fn lines_cover_runs()
    ensures { LinesCoverRuns }
{}
