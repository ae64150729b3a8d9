ghost use Rattle.std.specs.Prelude.{◌≡◌};
ghost use Rattle.av_outcome.specs.Handing.{Handed};
ghost use Rattle.av_outcome.specs.Pieces.{piece_text, text_of_pieces};

use crate::handing::{write_shown, write_whole};
use itoa::Buffer;
use jv_host::{Sink, SinkFault};

/// A piece of a line.
#[derive(Clone, Copy, Debug)]
pub enum Piece<'a> {
    /// These bytes as they are.
    Plain(&'a [u8]),
    /// A text in shown form.
    Shown(&'a [u8]),
    /// A number in decimal.
    Number(u64),
}

/// Hands a piece to a sink. This takes no memory.
fn write_piece<O: Sink>(out: &mut O, piece: Piece<'_>) -> Result<(), SinkFault>
    ensures handed { Handed result (record { taken = O.taken out.old; faults = O.faults out.old; lacks = O.lacks out.old })
        (record { taken = O.taken out.new; faults = O.faults out.new; lacks = O.lacks out.new }) (piece_text piece.entry) }
    ensures no_blanks { O.blanks out.new ≡ O.blanks out.old }
{
    match piece {
        Piece::Plain(bytes) => write_whole(out, bytes),
        Piece::Shown(text) => write_shown(out, text),
        Piece::Number(number) => write_whole(out, Buffer::new().format(number).as_bytes()),
    }
}

/// Hands pieces to a sink, one behind the other. This takes no memory.
pub fn write_pieces<O: Sink>(out: &mut O, pieces: &[Piece<'_>]) -> Result<(), SinkFault>
    ensures handed { Handed result (record { taken = O.taken out.old; faults = O.faults out.old; lacks = O.lacks out.old })
        (record { taken = O.taken out.new; faults = O.faults out.new; lacks = O.lacks out.new }) (text_of_pieces pieces.now) }
    ensures no_blanks { O.blanks out.new ≡ O.blanks out.old }
{
    for piece in pieces {
        write_piece(out, *piece)?;
    }
    Ok(())
}
