ghost use Rattle.std.specs.Prelude.{◌≡◌};
ghost use Rattle.av_outcome.specs.Handing.{Handed, Says};
ghost use Rattle.av_outcome.specs.Outcomes.{limit_line, outcome_line, outcome_status, refusal_line};

use crate::handing::{write_about, write_whole};
use crate::outcome::Outcome;
use crate::pieces::{Piece, write_pieces};
use crate::status::Status;
use jv_host::{Sink, SinkFault};
use jv_types::{Quantity, Refusal, RulePlace};

/// Tells of a rule that fails, and where. This takes no memory.
fn write_refusal<E: Sink>(err: &mut E, refusal: &Refusal) -> Result<(), SinkFault>
    ensures handed { Handed result (record { taken = E.taken err.old; faults = E.faults err.old; lacks = E.lacks err.old })
        (record { taken = E.taken err.new; faults = E.faults err.new; lacks = E.lacks err.new }) (refusal_line refusal.now.rule refusal.now.place) }
    ensures no_blanks { E.blanks err.new ≡ E.blanks err.old }
{
    let refused = Piece::Plain(b"averroes: refused ");
    let number = Piece::Number(refusal.rule.number() as u64);
    let rule = Piece::Plain(refusal.rule.name().as_bytes());
    let space = Piece::Plain(b" ");
    let newline = Piece::Plain(b"\n");
    match &refusal.place {
        RulePlace::File(name) => {
            let name = Piece::Shown(name.as_slice());
            write_pieces(err, &[refused, number, space, rule, space, name, newline])
        }
        RulePlace::Class(name) => {
            let name = Piece::Shown(name.as_slice());
            write_pieces(err, &[refused, number, space, rule, space, name, newline])
        }
        RulePlace::Method {
            class,
            name,
            desc,
            pc,
        } => {
            let class = Piece::Shown(class.as_slice());
            let name = Piece::Shown(name.as_slice());
            let desc = Piece::Shown(desc.as_slice());
            let pc = Piece::Number(*pc as u64);
            let at = [
                refused, number, space, rule, space, class, space, name, space, desc, space, pc,
                newline,
            ];
            write_pieces(err, &at)
        }
    }
}

/// Tells of a quantity that passes its limit. This takes no memory.
fn write_limit<E: Sink>(err: &mut E, quantity: Quantity, number: u64) -> Result<(), SinkFault>
    ensures handed { Handed result (record { taken = E.taken err.old; faults = E.faults err.old; lacks = E.lacks err.old })
        (record { taken = E.taken err.new; faults = E.faults err.new; lacks = E.lacks err.new }) (limit_line quantity number) }
    ensures no_blanks { E.blanks err.new ≡ E.blanks err.old }
{
    let limit = Piece::Plain(b"averroes: limit ");
    let quantity = Piece::Plain(quantity.name().as_bytes());
    let space = Piece::Plain(b" ");
    let newline = Piece::Plain(b"\n");
    write_pieces(
        err,
        &[limit, quantity, space, Piece::Number(number), newline],
    )
}

/// Tells err how a command ended. This takes no memory, and makes no call where all was written.
pub fn write_outcome<E: Sink>(err: &mut E, outcome: &Outcome) -> Result<(), SinkFault>
    ensures handed { Handed result (record { taken = E.taken err.old; faults = E.faults err.old; lacks = E.lacks err.old })
        (record { taken = E.taken err.new; faults = E.faults err.new; lacks = E.lacks err.new }) (outcome_line outcome.now) }
    ensures silent { outcome.now ≡ Outcome.Done → err.new ≡ err.old }
    ensures no_blanks { E.blanks err.new ≡ E.blanks err.old }
{
    match outcome {
        Outcome::Done => Ok(()),
        Outcome::Refused(refusal) => write_refusal(err, refusal),
        Outcome::Usage => write_whole(err, b"averroes: usage: verify or calls\n"),
        Outcome::ReadFault(name) => {
            write_about(err, b"averroes: read fault ", name.as_slice(), b"\n")
        }
        Outcome::WriteFault => write_whole(err, b"averroes: write fault report\n"),
        Outcome::Limit(quantity, number) => write_limit(err, *quantity, *number),
        Outcome::Memory => write_whole(err, b"averroes: memory\n"),
    }
}

/// Ends a command: tells err how it ended, and answers the status. No failure of err changes that.
pub fn finish<E: Sink>(err: &mut E, outcome: &Outcome) -> Status
    ensures status { result ≡ outcome_status outcome.now }
    ensures said { Says (record { taken = E.taken err.old; faults = E.faults err.old; lacks = E.lacks err.old })
        (record { taken = E.taken err.new; faults = E.faults err.new; lacks = E.lacks err.new }) (outcome_line outcome.now) }
    ensures silent { result ≡ Status.Done → err.new ≡ err.old }
    ensures no_blanks { E.blanks err.new ≡ E.blanks err.old }
{
    let _ = write_outcome(err, outcome);
    outcome.status()
}
