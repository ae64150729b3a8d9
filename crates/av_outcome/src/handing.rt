ghost use Rattle.std.specs.Prelude.{◌≡◌, ◌∷◌, [], ◌++◌};
ghost use Rattle.av_outcome.specs.Handing.{text_of_lines};
ghost use Rattle.jv_bytes.specs.Shown.{shown_text};
ghost use Rattle.av_outcome.specs.Handing.{Handed};

use jv_bytes::ShownByte;
use jv_host::{Sink, SinkFault};
use jv_types::Name;
use std::collections::BTreeSet;

/// Hands a whole text to a sink, in as many calls as the sink wants. This takes no memory.
pub fn write_whole<O: Sink>(out: &mut O, bytes: &[u8]) -> Result<(), SinkFault>
    ensures handed { Handed result (record { taken = O.taken out.old; faults = O.faults out.old; lacks = O.lacks out.old })
        (record { taken = O.taken out.new; faults = O.faults out.new; lacks = O.lacks out.new }) bytes.now }
    ensures no_blanks { O.blanks out.new ≡ O.blanks out.old }
{
    let mut rest = bytes;
    while !rest.is_empty() {
        let count = out.write(rest)?;
        let (_, after) = rest.split_at(count);
        rest = after;
    }
    Ok(())
}

/// Hands the shown form of a text to a sink. This takes no memory.
pub fn write_shown<O: Sink>(out: &mut O, text: &[u8]) -> Result<(), SinkFault>
    ensures handed { Handed result (record { taken = O.taken out.old; faults = O.faults out.old; lacks = O.lacks out.old })
        (record { taken = O.taken out.new; faults = O.faults out.new; lacks = O.lacks out.new }) (shown_text text.now) }
    ensures no_blanks { O.blanks out.new ≡ O.blanks out.old }
{
    for byte in text {
        write_whole(out, ShownByte::new(*byte).as_slice())?;
    }
    Ok(())
}

/// Hands a line to a sink that has a shown text between two plain ones. This takes no memory.
pub fn write_about<O: Sink>(
    out: &mut O,
    before: &[u8],
    text: &[u8],
    after: &[u8],
) -> Result<(), SinkFault>
    ensures handed { Handed result (record { taken = O.taken out.old; faults = O.faults out.old; lacks = O.lacks out.old })
        (record { taken = O.taken out.new; faults = O.faults out.new; lacks = O.lacks out.new })
        (before.now ++ (shown_text text.now ++ after.now)) }
    ensures no_blanks { O.blanks out.new ≡ O.blanks out.old }
{
    write_whole(out, before)?;
    write_shown(out, text)?;
    write_whole(out, after)
}

/// Hands a line to a sink, with a newline behind it. This takes no memory.
fn write_line<O: Sink>(out: &mut O, line: &[u8]) -> Result<(), SinkFault>
    ensures handed { Handed result (record { taken = O.taken out.old; faults = O.faults out.old; lacks = O.lacks out.old })
        (record { taken = O.taken out.new; faults = O.faults out.new; lacks = O.lacks out.new }) (line.now ++ 10 ∷ []) }
    ensures no_blanks { O.blanks out.new ≡ O.blanks out.old }
{
    write_whole(out, line)?;
    write_whole(out, b"\n")
}

/// Hands lines to a sink in their order, each with a newline. This takes no memory.
pub fn write_lines<O: Sink>(out: &mut O, lines: BTreeSet<Name>) -> Result<(), SinkFault>
    ensures handed { Handed result (record { taken = O.taken out.old; faults = O.faults out.old; lacks = O.lacks out.old })
        (record { taken = O.taken out.new; faults = O.faults out.new; lacks = O.lacks out.new }) (text_of_lines lines.keys) }
    ensures no_blanks { O.blanks out.new ≡ O.blanks out.old }
{
    let mut left = lines;
    while let Some(line) = left.pop_first() {
        write_line(out, line.as_slice())?;
    }
    Ok(())
}
