ghost use Rattle.std.specs.Prelude.{◌≡◌};
ghost use Rattle.av_cli.specs.Calls.Answers.{status_of};

use av_outcome::Status;

/// Why the command `calls` ended.
#[derive(Clone, Copy, Debug, PartialEq, Eq)]
pub enum Answer {
    /// All lines were printed.
    Printed,
    /// The host failed to read the file.
    Unreadable,
    /// There is no such file.
    NoFile,
    /// The file is longer than a class file may be.
    TooLarge,
    /// The bytes are no class file.
    NotClass,
    /// The bytes are a class file, and aren't of the form.
    OutsideForm,
    /// The class has no public static `main` of its own.
    NoMain,
    /// The printed output failed to take the lines.
    Unwritable,
    /// Memory is wanting.
    OutOfMemory,
}

impl Answer {
    /// The status of this answer.
    pub fn status(self) -> Status
        ensures { result ≡ status_of self }
    {
        match self {
            Answer::Printed => Status::Done,
            Answer::Unreadable => Status::ReadFault,
            Answer::NoFile => Status::Refused,
            Answer::TooLarge => Status::Limit,
            Answer::NotClass => Status::Refused,
            Answer::OutsideForm => Status::Refused,
            Answer::NoMain => Status::Refused,
            Answer::Unwritable => Status::WriteFault,
            Answer::OutOfMemory => Status::Memory,
        }
    }
}
