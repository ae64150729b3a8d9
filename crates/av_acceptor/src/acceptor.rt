ghost use Rattle.std.specs.Prelude.{List, ℕ, Option, option_map, IfOk, IfSome};
ghost use Rattle.jv_host.specs.declared.host.HostFile.{HostFile};
ghost use Rattle.av_program.specs.declared.accept_stop.AcceptStop.{AcceptStop as StopValue};
ghost use Rattle.av_program.specs.declared.program.Program.{Program as ProgramValue};
ghost use Rattle.av_program.specs.Answering.{Fits};
ghost use Rattle.av_program.specs.Reads.{EndsReading, KeepsFiles, Makes};
ghost use Rattle.av_acceptor.specs.Accepting.{IsNeeded, Tells};

use av_program::{AcceptStop, Program};
use jv_host::Host;
use jv_types::Name;
use std::alloc::Global;

/// Who accepts applications. Its meanings speak of the files that a host tells, of the root of an application, of that
/// of a library, and of the name of the main class, where one is asked for.
pub trait Acceptor {
    /// The first refusal or passed limit, in the one order of all rules and limits. At a point where several limits may
    /// pass, each of those that pass is one.
    ghost FirstStop: { List HostFile → List ℕ → List ℕ → Option (List ℕ) → StopValue → Type 0 };

    /// The program that an application and what it meets of a library make.
    ghost ProgramOf: { List HostFile → List ℕ → List ℕ → Option (List ℕ) → ProgramValue → Type 0 };

    /// The classes of a library that an application can meet, by their names.
    ghost Collects: { List HostFile → List ℕ → List ℕ → List ℕ → Type 0 };

    /// What holds of an accepted program, whether or not the host tells its files.
    ghost IsAccepted: { Option (List ℕ) → ProgramValue → Type 0 };

    /// The accepted program of the application under one root and the library under another. Where no main class is
    /// named, none is asked for. Nothing is written, and no file is changed.
    ///
    /// # Errors
    ///
    /// `Refused` and `Limit` exactly where no fault of the host came, and that comes first. `ReadFault` only where a
    /// list or a read failed, with the root or the file's name. `Memory` where memory is wanting.
    fn accept<H: Host>(
        &self,
        alloc: Global,
        host: &mut H,
        app: &Name,
        lib: &Name,
        main: Option<&Name>,
    ) -> Result<Program, AcceptStop>
        // What the answer says of the files, and what the files say of the answer.
        ensures tells { IfSome (H.files host.old) (λ told. Tells
            (ProgramOf told app.now lib.now (option_map (λ name. name.now) main.entry))
            (FirstStop told app.now lib.now (option_map (λ name. name.now) main.entry)) result) }
        ensures exact { IfSome (H.files host.old) (λ told. (stop : StopValue)
            → FirstStop told app.now lib.now (option_map (λ name. name.now) main.entry) stop → Fits stop result) }
        ensures accepted { IfOk result (IsAccepted (option_map (λ name. name.now) main.entry)) }

        // Nothing is written. The host answers needed calls alone, and a fault is told only where one of them failed.
        ensures kept { KeepsFiles
            (record { files = H.files host.old; written = H.written host.old; calls = H.calls host.old; failed = H.failed host.old; read_faults = H.read_faults host.old; write_faults = H.write_faults host.old })
            (record { files = H.files host.new; written = H.written host.new; calls = H.calls host.new; failed = H.failed host.new; read_faults = H.read_faults host.new; write_faults = H.write_faults host.new }) }
        ensures makes { Makes (IsNeeded Collects (H.files host.old) app.now lib.now)
            (record { files = H.files host.old; written = H.written host.old; calls = H.calls host.old; failed = H.failed host.old; read_faults = H.read_faults host.old; write_faults = H.write_faults host.old })
            (record { files = H.files host.new; written = H.written host.new; calls = H.calls host.new; failed = H.failed host.new; read_faults = H.read_faults host.new; write_faults = H.write_faults host.new }) }
        ensures ends { EndsReading (IsNeeded Collects (H.files host.old) app.now lib.now)
            (record { files = H.files host.old; written = H.written host.old; calls = H.calls host.old; failed = H.failed host.old; read_faults = H.read_faults host.old; write_faults = H.write_faults host.old })
            (record { files = H.files host.new; written = H.written host.new; calls = H.calls host.new; failed = H.failed host.new; read_faults = H.read_faults host.new; write_faults = H.write_faults host.new }) result };
}
