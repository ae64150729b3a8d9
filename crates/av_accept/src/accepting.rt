ghost use Rattle.std.specs.Prelude.{List, ℕ, option_map, IfOk, IfSome};
ghost use Rattle.av_program.specs.declared.accept_stop.AcceptStop.{AcceptStop as StopValue};
ghost use Rattle.av_program.specs.Answering.{Fits};
ghost use Rattle.av_program.specs.Reads.{EndsReading, KeepsFiles, Makes};
ghost use Rattle.av_acceptor.specs.Accepting.{IsNeeded, Tells};
ghost use Rattle.av_accept.specs.Meanings.{Collects, FirstStopOf, IsAccepted, ProgramOf};

use av_acceptor::Acceptor;
use av_build::build;
use av_checkable::accepted_programs_are_checkable;
use av_gathered::gather;
use av_load::load_files;
use av_one_stop::first_stops_fit;
use av_program::{AcceptStop, Program};
use av_stages::give;
use jv_host::Host;
use jv_types::Name;
use std::alloc::Global;

/// The acceptor that keeps the rules.
#[derive(Clone, Copy, Debug)]
pub struct Rules;

/// The program of two folders: the class files of an application, and those that declare its library. With a name of
/// a class, which has `/` between its parts, that class has the main with which the program starts.
///
/// Only the application's folder is listed. In the library's, listed names are looked up, to see that no class is in
/// both, and the files of those classes are read that the application can meet.
///
/// # Errors
///
/// `Refused` or `Limit` by the first rule that fails or limit that passes, in the one order of them. `ReadFault` with
/// a file's name, or the root that was listed, where the host failed. `Memory` where memory is wanting.
pub fn accept<H: Host>(
    alloc: Global,
    host: &mut H,
    app: &Name,
    lib: &Name,
    main: Option<&Name>,
) -> Result<Program, AcceptStop>
    ensures tells { IfSome (H.files host.old) (λ told. Tells
        (ProgramOf told app.now lib.now (option_map (λ name. name.now) main.entry))
        (FirstStopOf told app.now lib.now (option_map (λ name. name.now) main.entry)) result) }
    ensures exact { IfSome (H.files host.old) (λ told. (stop : StopValue)
        → FirstStopOf told app.now lib.now (option_map (λ name. name.now) main.entry) stop → Fits stop result) }
    ensures accepted { IfOk result (IsAccepted (option_map (λ name. name.now) main.entry)) }
    ensures kept { KeepsFiles
        (record { files = H.files host.old; written = H.written host.old; calls = H.calls host.old; failed = H.failed host.old; read_faults = H.read_faults host.old; write_faults = H.write_faults host.old })
        (record { files = H.files host.new; written = H.written host.new; calls = H.calls host.new; failed = H.failed host.new; read_faults = H.read_faults host.new; write_faults = H.write_faults host.new }) }
    ensures makes { Makes (IsNeeded Collects (H.files host.old) app.now lib.now)
        (record { files = H.files host.old; written = H.written host.old; calls = H.calls host.old; failed = H.failed host.old; read_faults = H.read_faults host.old; write_faults = H.write_faults host.old })
        (record { files = H.files host.new; written = H.written host.new; calls = H.calls host.new; failed = H.failed host.new; read_faults = H.read_faults host.new; write_faults = H.write_faults host.new }) }
    ensures ends { EndsReading (IsNeeded Collects (H.files host.old) app.now lib.now)
        (record { files = H.files host.old; written = H.written host.old; calls = H.calls host.old; failed = H.failed host.old; read_faults = H.read_faults host.old; write_faults = H.write_faults host.old })
        (record { files = H.files host.new; written = H.written host.new; calls = H.calls host.new; failed = H.failed host.new; read_faults = H.read_faults host.new; write_faults = H.write_faults host.new }) result }
{
    first_stops_fit();
    accepted_programs_are_checkable();
    let loaded = load_files(alloc, host, app, lib)?;
    let known = give(alloc, loaded)?;
    let found = gather(alloc, host, lib, &known.given)?;
    build(alloc, known, found, main)
}

impl Acceptor for Rules {
    ghost FirstStop = { FirstStopOf };

    ghost ProgramOf = { ProgramOf };

    ghost Collects = { Collects };

    ghost IsAccepted = { IsAccepted };

    fn accept<H: Host>(
        &self,
        alloc: Global,
        host: &mut H,
        app: &Name,
        lib: &Name,
        main: Option<&Name>,
    ) -> Result<Program, AcceptStop> {
        accept(alloc, host, app, lib, main)
    }
}
