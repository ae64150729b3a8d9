ghost use Rattle.std.specs.Prelude.{◌≡◌, map, IfOk};
ghost use Rattle.std.specs.List.{zip};
ghost use Rattle.av_asm.specs.Planning.{insns_of, handler_of, most_words};

use crate::starts::{insn_of, start_at};
use crate::step::{Span, Step};
use jv_types::{Frame, Handler, Insn};
use std::alloc::{AllocError, Global};

/// Each instruction with the offset at which it starts. Only memory can be wanting.
pub fn insns_of(
    alloc: Global,
    starts: &[u16],
    steps: Vec<Step>,
) -> Result<Vec<(u16, Insn)>, AllocError>
    ensures { IfOk result (λ insns. insns.items ≡ insns_of starts.now steps.items) }
{
    starts
        .iter()
        .zip(steps)
        .map(|(pc, step)| (*pc, insn_of(starts, step)))
        .collect(alloc)
}

/// Each frame with the offset of its instruction. Only memory can be wanting.
pub fn frames_of(
    alloc: Global,
    starts: &[u16],
    frames: Vec<Frame>,
) -> Result<Vec<(u16, Frame)>, AllocError>
    ensures { IfOk result (λ rows. rows.items ≡ zip starts.now frames.items) }
{
    starts.iter().copied().zip(frames).collect(alloc)
}

/// A handler of all throwables, over instructions by their offsets.
fn handler_of(starts: &[u16], span: &Span) -> Handler
    ensures { result ≡ handler_of starts.now span.now }
{
    Handler {
        start: start_at(starts, span.start),
        end: start_at(starts, span.end),
        target: start_at(starts, span.target),
        catch: None,
    }
}

/// Handlers of all throwables, over instructions by their offsets. Only memory can be wanting.
pub fn handlers_of(
    alloc: Global,
    starts: &[u16],
    spans: &[Span],
) -> Result<Vec<Handler>, AllocError>
    ensures { IfOk result (λ handlers. handlers.items ≡ map (handler_of starts.now) spans.now) }
{
    spans
        .iter()
        .map(|span| handler_of(starts, span))
        .collect(alloc)
}

/// The greatest number of words on a stack.
pub fn most_words(frames: &[Frame]) -> usize
    ensures { result ≡ most_words frames.now }
{
    let mut most = 0;
    for frame in frames {
        most = frame.stack.len().max(most);
    }
    most
}
