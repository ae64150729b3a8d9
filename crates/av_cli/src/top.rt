ghost use Rattle.std.specs.Prelude.{◌≡◌, []};
ghost use Rattle.av_cli.specs.Calls.Answers.{error_line};
ghost use Rattle.av_outcome.specs.Handing.{Says};

use crate::calls::{Answer, write_answer};
use av_outcome::Status;
use jv_host::Sink;

/// Ends for want of memory before a command could be run, and tells err so. This takes no memory.
pub fn stop_for_memory<E: Sink>(err: &mut E) -> Status
    ensures status { result ≡ Status.Memory }
    ensures said { Says (record { taken = E.taken err.old; faults = E.faults err.old; lacks = E.lacks err.old })
        (record { taken = E.taken err.new; faults = E.faults err.new; lacks = E.lacks err.new }) (error_line [] Answer.OutOfMemory) }
    ensures no_blank_told { E.blanks err.new ≡ E.blanks err.old }
{
    let _ = write_answer(err, Answer::OutOfMemory, b"");
    Status::Memory
}
