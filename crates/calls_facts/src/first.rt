ghost use Rattle.calls_facts.specs.First.Covered.{ClosedCover};

mod forcing;
mod found;
mod giving;
mod opening;
mod prepared;
mod solver;
mod solving;
mod step;

pub use solving::least_facts;

/// The law of coverage: facts that are closed under the rules cover each run, its calls and the objects
/// that stand in frames, in static fields and in the fields of objects.
pub fn closed_facts_cover()
    ensures { ClosedCover }
{}
