ghost use Rattle.std.specs.Prelude.{◌≡◌, ◌↔◌, List, IsTrue, IfOk, Err, All};
ghost use Rattle.jv_types.specs.declared.frames.VType.{VType};
ghost use Rattle.jv_insn.specs.Effects.{effect_of};
ghost use Rattle.jv_typing.specs.Typing.{LocalsAfter};
ghost use Rattle.jv_typing.specs.declared.no_typing.NoTyping.TheVariants as none;
ghost use Rattle.jv_verify_words.specs.Parts.{ReadHolds};

use jv_insn::{is_load, is_store, local_of};
use jv_table::{Cell, ops};
use jv_types::{Insn, Seq, VType};
use jv_typing::{NoTyping, copied, hold_from, holds_from, stored};
use std::alloc::Global;

/// Whether the local variable that an instruction reads, if it reads one, holds its cell. A load reads the
/// cells that it gives.
pub fn reads_hold(locals: &[VType], insn: &Insn, gives: &[Cell]) -> bool
    requires { gives.now ≡ (effect_of insn.now).gives }
    ensures { IsTrue result ↔ All (ReadHolds locals.now) (effect_of insn.now).reads }
{
    let local = local_of(insn.op, &insn.arg);
    if is_load(insn.op) {
        hold_from(locals, local, gives)
    } else if insn.op == ops::IINC {
        holds_from(locals, local, Cell::Int)
    } else {
        true
    }
}

/// The local variables after an instruction that takes these words from the stack.
pub fn locals_after(
    alloc: Global,
    locals: &[VType],
    insn: &Insn,
    taken: &[VType],
) -> Result<Seq<VType>, NoTyping>
    ensures ok { IfOk result (LocalsAfter insn.now taken.now locals.now) }
    ensures rule { result ≡ Err none.Rule → (after : List VType) → LocalsAfter insn.now taken.now locals.now after → ⊥ }
{
    if is_store(insn.op) {
        stored(alloc, locals, local_of(insn.op, &insn.arg), taken)
    } else {
        Ok(copied(alloc, locals)?)
    }
}
