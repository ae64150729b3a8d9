ghost use Rattle.std.specs.Prelude.{◌≡◌, IfOk, IfSome};
ghost use Rattle.av_program.specs.declared.accept_stop.AcceptStop.{AcceptStop as StopValue};
ghost use Rattle.av_program.specs.Answering.{Fits};
ghost use Rattle.av_program.specs.Reads.{EndsReading, KeepsFiles, Makes};
ghost use Rattle.av_acceptor.specs.Accepting.{IsNeeded, Tells};
ghost use Rattle.av_cli.specs.Verifying.{Prints, VerifyEnds};

use av_acceptor::Acceptor;
use av_outcome::{Outcome, write_lines};
use av_program::{AcceptStop, Program};
use av_verified::verified_lines;
use jv_host::{Host, Sink, SinkFault};
use jv_types::Name;
use std::alloc::{AllocError, Global};

/// The program of the application under one root over the library under another, as the acceptor answers. No main class
/// is asked for.
fn accept_folders<A: Acceptor, H: Host>(
    alloc: Global,
    acceptor: &A,
    app: &[u8],
    lib: &[u8],
    host: &mut H,
) -> Result<Program, AcceptStop>
    ensures tells { IfSome (H.files host.old) (λ told. Tells (A.ProgramOf told app.now lib.now None) (A.FirstStop told app.now lib.now None) result) }
    ensures exact { IfSome (H.files host.old) (λ told. (stop : StopValue) → A.FirstStop told app.now lib.now None stop → Fits stop result) }
    ensures accepted { IfOk result (A.IsAccepted None) }

    ensures kept { KeepsFiles
        (record { files = H.files host.old; written = H.written host.old; calls = H.calls host.old; failed = H.failed host.old; read_faults = H.read_faults host.old; write_faults = H.write_faults host.old })
        (record { files = H.files host.new; written = H.written host.new; calls = H.calls host.new; failed = H.failed host.new; read_faults = H.read_faults host.new; write_faults = H.write_faults host.new }) }
    ensures makes { Makes (IsNeeded A.Collects (H.files host.old) app.now lib.now)
        (record { files = H.files host.old; written = H.written host.old; calls = H.calls host.old; failed = H.failed host.old; read_faults = H.read_faults host.old; write_faults = H.write_faults host.old })
        (record { files = H.files host.new; written = H.written host.new; calls = H.calls host.new; failed = H.failed host.new; read_faults = H.read_faults host.new; write_faults = H.write_faults host.new }) }
    ensures ends { EndsReading (IsNeeded A.Collects (H.files host.old) app.now lib.now)
        (record { files = H.files host.old; written = H.written host.old; calls = H.calls host.old; failed = H.failed host.old; read_faults = H.read_faults host.old; write_faults = H.write_faults host.old })
        (record { files = H.files host.new; written = H.written host.new; calls = H.calls host.new; failed = H.failed host.new; read_faults = H.read_faults host.new; write_faults = H.write_faults host.new }) result }
{
    let app = Name::from_slice(alloc, app)?;
    let lib = Name::from_slice(alloc, lib)?;
    acceptor.accept(alloc, host, &app, &lib, None)
}

/// Prints a line for each method of a program's application that has code.
fn print_program<O: Sink>(alloc: Global, program: &Program, out: &mut O) -> Outcome
    ensures prints { Prints program.now.world (record { taken = O.taken out.old; faults = O.faults out.old; lacks = O.lacks out.old })
        (record { taken = O.taken out.new; faults = O.faults out.new; lacks = O.lacks out.new }) result }
    ensures no_blanks { O.blanks out.new ≡ O.blanks out.old }
{
    let lines = match verified_lines(alloc, &program.world) {
        Ok(lines) => lines,
        Err(AllocError) => return Outcome::Memory,
    };
    match write_lines(out, lines) {
        Ok(()) => Outcome::Done,
        Err(SinkFault::Failed) => Outcome::WriteFault,
        Err(SinkFault::Memory) => Outcome::Memory,
    }
}

/// Accepts the application under one root over the library under another, and prints a line for each of its methods
/// that has code: each of them verifies.
pub fn verify<A: Acceptor, H: Host, O: Sink>(
    alloc: Global,
    acceptor: &A,
    app: &[u8],
    lib: &[u8],
    host: &mut H,
    out: &mut O,
) -> Outcome
    ensures ends { VerifyEnds A.FirstStop A.ProgramOf A.Collects A.IsAccepted app.now lib.now (record {
      files = H.files host.old;
      reads_before = H.read_faults host.old;
      reads_after = H.read_faults host.new;
      failed = H.failed host.new;
      out_before = record { taken = O.taken out.old; faults = O.faults out.old; lacks = O.lacks out.old };
      out_after = record { taken = O.taken out.new; faults = O.faults out.new; lacks = O.lacks out.new };
    }) result }
    ensures no_blanks { O.blanks out.new ≡ O.blanks out.old }

    ensures kept { KeepsFiles
        (record { files = H.files host.old; written = H.written host.old; calls = H.calls host.old; failed = H.failed host.old; read_faults = H.read_faults host.old; write_faults = H.write_faults host.old })
        (record { files = H.files host.new; written = H.written host.new; calls = H.calls host.new; failed = H.failed host.new; read_faults = H.read_faults host.new; write_faults = H.write_faults host.new }) }
    ensures makes { Makes (IsNeeded A.Collects (H.files host.old) app.now lib.now)
        (record { files = H.files host.old; written = H.written host.old; calls = H.calls host.old; failed = H.failed host.old; read_faults = H.read_faults host.old; write_faults = H.write_faults host.old })
        (record { files = H.files host.new; written = H.written host.new; calls = H.calls host.new; failed = H.failed host.new; read_faults = H.read_faults host.new; write_faults = H.write_faults host.new }) }
{
    let program = match accept_folders(alloc, acceptor, app, lib, host) {
        Ok(program) => program,
        Err(stop) => return Outcome::of_stop(stop),
    };
    print_program(alloc, &program, out)
}
