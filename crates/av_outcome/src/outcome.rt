ghost use Rattle.std.specs.Prelude.{◌≡◌};
ghost use Rattle.av_outcome.specs.Outcomes.{outcome_status, outcome_of_stop};

use crate::status::Status;
use av_program::AcceptStop;
use jv_types::{Name, Quantity, Refusal};

/// How a command ended, and why.
#[derive(Debug, Drop)]
pub enum Outcome {
    /// All was written.
    Done,
    /// This rule fails, and there.
    Refused(Refusal),
    /// The words are in no command's form.
    Usage,
    /// The host failed to read the file of this name, or to list this root.
    ReadFault(Name),
    /// The printed output failed.
    WriteFault,
    /// This quantity passes its limit, which is this number.
    Limit(Quantity, u64),
    /// Memory is wanting.
    Memory,
}

impl Outcome {
    /// The status of this outcome.
    pub fn status(&self) -> Status
        ensures { result ≡ outcome_status self.now }
    {
        match self {
            Outcome::Done => Status::Done,
            Outcome::Refused(_) => Status::Refused,
            Outcome::Usage => Status::Usage,
            Outcome::ReadFault(_) => Status::ReadFault,
            Outcome::WriteFault => Status::WriteFault,
            Outcome::Limit(_, _) => Status::Limit,
            Outcome::Memory => Status::Memory,
        }
    }

    /// The outcome where an application isn't accepted.
    pub fn of_stop(stop: AcceptStop) -> Outcome
        ensures { result ≡ outcome_of_stop stop }
    {
        match stop {
            AcceptStop::Refused(refusal) => Outcome::Refused(refusal),
            AcceptStop::Limit(quantity, number) => Outcome::Limit(quantity, number),
            AcceptStop::ReadFault(name) => Outcome::ReadFault(name),
            AcceptStop::Memory => Outcome::Memory,
        }
    }
}
