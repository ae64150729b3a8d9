ghost use Rattle.std.specs.Prelude.{◌≡◌};
ghost use Rattle.av_cli.specs.Calls.Answers.{error_line};
ghost use Rattle.av_outcome.specs.Handing.{Handed};

use crate::calls::answer::Answer;
use av_outcome::{write_about, write_whole};
use jv_host::{Sink, SinkFault};

/// Tells err why a command ended, about the class of this name. This takes no memory, and makes no
/// call where all was printed.
pub fn write_answer<E: Sink>(err: &mut E, answer: Answer, name: &[u8]) -> Result<(), SinkFault>
    ensures said { Handed result (record { taken = E.taken err.old; faults = E.faults err.old; lacks = E.lacks err.old })
        (record { taken = E.taken err.new; faults = E.faults err.new; lacks = E.lacks err.new }) (error_line name.now answer) }
    ensures silent { answer ≡ Answer.Printed → err.new ≡ err.old }
    ensures no_blanks { E.blanks err.new ≡ E.blanks err.old }
{
    match answer {
        Answer::Printed => Ok(()),
        Answer::Unreadable => write_about(err, b"averroes: read fault ", name, b".class\n"),
        Answer::NoFile => write_about(err, b"averroes: refused 20 NoMain ", name, b"\n"),
        Answer::TooLarge => write_whole(err, b"averroes: limit file-bytes 16777216\n"),
        Answer::NotClass => write_about(err, b"averroes: refused 1 NotClass ", name, b".class\n"),
        Answer::OutsideForm => {
            write_about(err, b"averroes: refused 22 NotBuiltYet ", name, b".class\n")
        }
        Answer::NoMain => write_about(err, b"averroes: refused 20 NoMain ", name, b"\n"),
        Answer::Unwritable => write_whole(err, b"averroes: write fault report\n"),
        Answer::OutOfMemory => write_whole(err, b"averroes: memory\n"),
    }
}
