ghost use Rattle.std.specs.Prelude.{◌≡◌};
ghost use Rattle.av_outcome.specs.Statuses.{code_of};

/// How the program ended, as its caller sees it.
#[derive(Clone, Copy, Debug, PartialEq, Eq)]
pub enum Status {
    /// All was written.
    Done,
    /// The input is refused by a rule.
    Refused,
    /// The words are no command.
    Usage,
    /// The host failed to read.
    ReadFault,
    /// The host or the printed output failed to write.
    WriteFault,
    /// A quantity passes its limit.
    Limit,
    /// Memory is wanting.
    Memory,
}

impl Status {
    /// The number with which the process ends.
    pub fn code(self) -> u8
        ensures { result ≡ code_of self }
    {
        match self {
            Status::Done => 0,
            Status::Refused => 1,
            Status::Usage => 2,
            Status::ReadFault => 3,
            Status::WriteFault => 4,
            Status::Limit => 5,
            Status::Memory => 6,
        }
    }
}
