ghost use Rattle.std.specs.Prelude.{◌≡◌, ◌<◌, ◌+◌, ◌*◌, ℕ, List, IfSome, IfNone, false, length, if◌then◌else◌};
ghost use Rattle.jv_types.specs.declared.instruction.Insn.{Insn};
ghost use Rattle.jv_pool.specs.declared.item.PoolItem.{PoolItem};
ghost use Rattle.jv_insn.specs.Layouts.{padding_at, head_text};
ghost use Rattle.jv_insn.specs.Encoding.{is_narrow, number_size, method_size, jump_size, arg_size, insn_size, insn_text, is_left_out};

use crate::encoder::form_of;
use crate::switches::padding_at;
use crate::writing::is_narrow;
use jv_table::Form;
use jv_types::{Arg, Insn};

/// The most branches that a switch of a code may have: each takes four bytes or more.
const MOST_BRANCHES: usize = 16383;

/// How many bytes a number takes.
fn number_size(narrow: bool) -> usize
    ensures { result ≡ number_size narrow }
{
    if narrow { 1 } else { 2 }
}

/// How many bytes the operands of an invoke take.
fn method_size(form: Form) -> usize
    ensures { result ≡ method_size form }
{
    match form {
        Form::InterfaceMethod => 4,
        _ => 2,
    }
}

/// How many bytes the offset of a jump takes.
fn jump_size(form: Form) -> usize
    ensures { result ≡ jump_size form }
{
    match form {
        Form::Jump4 => 4,
        _ => 2,
    }
}

/// How many bytes a switch takes behind its opcode, of so many branches of a width.
fn switch_size(pc: u16, head: usize, width: usize, branches: usize) -> Option<usize>
    requires head_is { head < 16 }
    requires width_is { 3 < width }
    requires narrow { width < 16 }
    ensures some { IfSome result (λ size. size ≡ padding_at (pc + 1) + (head + width * branches)) }
    ensures none { IfNone result (65535 < padding_at (pc + 1) + (head + width * branches)) }
{
    if branches > MOST_BRANCHES {
        return None;
    }
    Some(padding_at(usize::from(pc) + 1) + (head + width * branches))
}

/// How many bytes operands take.
fn arg_size(form: Form, wide: bool, pc: u16, arg: &Arg) -> Option<usize>
    ensures some { IfSome result (λ size. size ≡ arg_size form wide pc arg.now) }
    ensures none { IfNone result (65535 < arg_size form wide pc arg.now) }
{
    match arg {
        Arg::Nothing => Some(0),
        Arg::Local(_) | Arg::Small(_) | Arg::Constant(_) => Some(number_size(is_narrow(
            form, wide,
        ))),
        Arg::Inc(_, _) => Some(2 * number_size(is_narrow(form, wide))),
        Arg::Class(_) | Arg::Field(_) => Some(2),
        Arg::Method(_) => Some(method_size(form)),
        Arg::Dynamic => Some(4),
        Arg::NewPrim(_) => Some(1),
        Arg::Multi(_, _) => Some(3),
        Arg::Jump(_) => Some(jump_size(form)),
        Arg::Table { targets, .. } => switch_size(pc, 12, 4, targets.len()),
        Arg::Lookup { cases, .. } => switch_size(pc, 8, 8, cases.len()),
    }
}

/// How many bytes an instruction takes at an offset of the code (JVMS 6.5), over any pool. There is no
/// answer only where these are more than a code may have, 65535.
pub fn size_at(pc: u16, insn: &Insn) -> Option<usize>
    ensures some { IfSome result (λ size. size ≡ insn_size pc insn.now) }
    ensures none { IfNone result (65535 < insn_size pc insn.now) }
{
    let head: usize = if insn.wide { 2 } else { 1 };
    let operands = arg_size(form_of(insn.op), insn.wide, pc, &insn.arg)?;
    head.checked_add(operands)
}

/// The bytes of an instruction over a pool are as many as its size says, where no part of its operands is
/// left out. This does nothing, and its contract is the law.
pub fn sizes_are_lengths()
    ensures { (pool : List PoolItem) (pc : ℕ) (insn : Insn) → is_left_out insn.arg ≡ false
        → length (insn_text pool pc insn) ≡ insn_size pc insn }
{}
