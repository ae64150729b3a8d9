ghost use Rattle.std.specs.Prelude.{◌≡◌, ◌<◌, ◌≤◌, None, length, take, option_map, ◌++◌, IfOk, OnErr};
ghost use Rattle.std.specs.Io.KnownBytes.{WriteAppends};
ghost use Rattle.jv_host.specs.Counts.{Rises, one_more};
ghost use Rattle.jv_host.specs.SinkAnswer.{OnSinkFailed, UnlessSinkFailed, OnSinkLacking, UnlessSinkLacking};

use crate::sink::{Sink, SinkFault};
use std::io::Write;
use std::marker::Model;

/// A sink over the standard output or the standard error, or over any other writer. It tells nothing of
/// what it has taken, and takes no memory. It is seen as what its writer holds and how often it has failed.
#[derive(Drop)]
pub struct StdSink<W: Write + Drop> {
    writer: W,
    faults: u64,
}

impl<W: Write + Drop> Model for StdSink<W> {
    ghost use Rattle.jv_host.specs.StdSinkState.{StdSinkState};

    ghost Value = { StdSinkState };

    ghost view = { λ s. record { contents = W.contents s.writer; faults = s.faults } };
}

impl<W: Write + Drop> StdSink<W> {
    /// A sink that hands on to a writer.
    pub fn new(writer: W) -> StdSink<W>
        ensures { result ≡ record { contents = W.contents writer; faults = 0 } }
    {
        StdSink { writer, faults: 0 }
    }
}

impl<W: Write + Drop> Sink for StdSink<W> {
    ghost taken = { λ _. None };

    ghost faults = { λ s. s.faults };

    ghost lacks = { λ _. 0 };

    ghost blanks = { λ _. None };

    /// One write of the writer. That it takes none of some bytes counts as a failure.
    fn write(&mut self, bytes: &[u8]) -> Result<usize, SinkFault>
        ensures within { IfOk result (λ count. count ≤ length bytes.now) }
        ensures progress { IfOk result (λ count. 0 < length bytes.now → 0 < count) }

        ensures fault_counted { OnSinkFailed result (Rises self.old.faults self.new.faults) }
        ensures faults_kept { UnlessSinkFailed result (self.new.faults ≡ self.old.faults) }
        ensures faults_never_fall { self.old.faults ≤ self.new.faults }

        ensures lack_counted { OnSinkLacking result (Rises 0 0) }

        // The writer took what the answer says, and each failure counts once.
        ensures handed { WriteAppends self.old.contents self.new.contents result bytes.now }
        ensures counted { OnSinkFailed result (self.new.faults ≡ one_more self.old.faults) }
    {
        match self.writer.write(bytes) {
            Ok(count) if count > 0 || bytes.is_empty() => Ok(count),
            _ => {
                self.faults = self.faults.saturating_add(1);
                Err(SinkFault::Failed)
            }
        }
    }
}
