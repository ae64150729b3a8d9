ghost use Rattle.std.specs.Prelude.{◌≡◌, ◌≤◌, ◌<◌, ◌++◌, length, IfOk, Err};
ghost use Rattle.jv_typing.specs.declared.no_typing.NoTyping.TheVariants as none;

use crate::no_typing::NoTyping;
use crate::words::push_copies;
use jv_types::{Seq, VType};
use std::alloc::Global;

/// The stack of these words and of others on top of them. It is refused exactly where it has more than so many
/// words (JVMS 4.10.1.4, operandStackHasLegalLength).
pub fn stack_with(
    alloc: Global,
    below: &[VType],
    given: &[VType],
    max_stack: u16,
) -> Result<Seq<VType>, NoTyping>
    ensures ok { IfOk result (λ stack. stack ≡ below.now ++ given.now) }
    ensures room { IfOk result (λ stack. length stack ≤ max_stack) }
    ensures rule { result ≡ Err none.Rule → max_stack < length (below.now ++ given.now) }
{
    let mut words = Vec::with_capacity(alloc, below.len().saturating_add(given.len()))?;
    push_copies(alloc, &mut words, below)?;
    push_copies(alloc, &mut words, given)?;
    if words.len() <= usize::from(max_stack) {
        Ok(Seq::from_vec(words))
    } else {
        Err(NoTyping::Rule)
    }
}
