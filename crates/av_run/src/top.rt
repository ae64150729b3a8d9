ghost use Rattle.std.specs.Prelude.{◌≡◌, ◌⊎◌, List, ℕ, map, option_map};
ghost use Rattle.jv_host.specs.Counts.{one_more};
ghost use Rattle.av_words.specs.Requests.{AskCalls, AskNothing, AskVerify};
ghost use Rattle.av_program.specs.Reads.{Makes};
ghost use Rattle.av_acceptor.specs.Accepting.{IsNeeded};
ghost use Rattle.av_cli.specs.Calls.Ending.{CallsOnlyRead};
ghost use Rattle.av_cli.specs.Commands.{Runs};
ghost use Rattle.av_cli.specs.Verifying.{VerifyEnds};
ghost use Rattle.av_accept.specs.Meanings.{Collects, FirstStopOf, IsAccepted, ProgramOf};

use av_accept::Rules;
use av_cli::{Status, run_with};
use jv_host::{Host, Sink};
use std::alloc::Global;

/// Runs the command that the words name.
///
/// - `verify --app DIR --lib DIR` says of the application under one root, over the library under the other, either that
///   each of its methods verifies, with a line `verified CLASS NAME DESC` on `out` for each that has code, sorted by
///   bytes, or which of the numbered rules fails first, and where, on `err`.
/// - `calls ROOT NAME` reads `NAME.class` under ROOT and prints the calls of that class, and where its objects stand, to
///   `out`, a line each, sorted by bytes.
///
/// A status that isn't `Done` writes one line to `err`. Nothing is written by the host.
pub fn run<H: Host, O: Sink, E: Sink>(
    alloc: Global,
    words: &[&str],
    host: &mut H,
    out: &mut O,
    err: &mut E,
) -> Status
    // The outcome: its status, its cause, and the line that err gets.
    ensures ends { Runs (VerifyEnds FirstStopOf ProgramOf Collects IsAccepted) (map (λ w. w.now) words.now) (record {
      files = H.files host.old;
      reads_before = H.read_faults host.old;
      reads_after = H.read_faults host.new;
      failed = H.failed host.new;
      out_before = record { taken = O.taken out.old; faults = O.faults out.old; lacks = O.lacks out.old };
      out_after = record { taken = O.taken out.new; faults = O.faults out.new; lacks = O.lacks out.new };
    })
        (record { taken = E.taken err.old; faults = E.faults err.old; lacks = E.lacks err.old })
        (record { taken = E.taken err.new; faults = E.faults err.new; lacks = E.lacks err.new }) result }
    ensures silent_at_done { result ≡ Status.Done → err.new ≡ err.old }
    // Neither sink is handed an empty piece.
    ensures no_blank_printed { O.blanks out.new ≡ O.blanks out.old }
    ensures no_blank_told { E.blanks err.new ≡ E.blanks err.old }

    // The host isn't called where the words are in no form, and but for the one read where they ask for `calls`.
    ensures idle { AskNothing (map (λ w. w.now) words.now) → host.new ≡ host.old }
    ensures asked_at_most_once { (root name : List ℕ) → AskCalls (map (λ w. w.now) words.now) root name
        → (H.asked host.new ≡ H.asked host.old) ⊎ (H.asked host.new ≡ option_map one_more (H.asked host.old)) }
    ensures only_read { (root name : List ℕ) → AskCalls (map (λ w. w.now) words.now) root name
        → CallsOnlyRead (map (λ w. w.now) words.now) (H.calls host.old) (H.calls host.new) }
    // For `verify` the host answers needed calls alone.
    ensures only_needed { (app lib : List ℕ) → AskVerify (map (λ w. w.now) words.now) app lib → Makes (IsNeeded Collects (H.files host.old) app lib)
        (record { files = H.files host.old; written = H.written host.old; calls = H.calls host.old; failed = H.failed host.old; read_faults = H.read_faults host.old; write_faults = H.write_faults host.old })
        (record { files = H.files host.new; written = H.written host.new; calls = H.calls host.new; failed = H.failed host.new; read_faults = H.read_faults host.new; write_faults = H.write_faults host.new }) }
    ensures files_kept { H.files host.new ≡ H.files host.old }
    ensures written_kept { H.written host.new ≡ H.written host.old }
    ensures write_faults_kept { H.write_faults host.new ≡ H.write_faults host.old }
{
    run_with(alloc, words, host, out, err, &Rules)
}
