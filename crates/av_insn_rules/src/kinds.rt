ghost use Rattle.std.specs.Prelude.{◌≡◌, ◌↔◌, ◌⊎◌, IsTrue};
ghost use Rattle.av_insn_rules.specs.InsnRules.{IsDynamic, IsSubroutine, IsTooEarly, NamesInterfaceMethod};

use jv_table::ops;
use jv_types::{Arg, Const, Insn};

/// Whether an instruction is one of subroutines: jsr, ret or jsr_w (JVMS 6.5).
pub fn is_subroutine(insn: &Insn) -> bool
    ensures { IsTrue result ↔ IsSubroutine insn.now }
{
    insn.op == ops::JSR || insn.op == ops::RET || insn.op == ops::JSR_W
}

/// Whether an operand is a constant that is linked at run time: a MethodHandle or a MethodType.
fn is_linked_constant(arg: &Arg) -> bool
    ensures { IsTrue result ↔ ((arg.now ≡ Arg.Constant Const.Handle) ⊎ (arg.now ≡ Arg.Constant Const.MethodKind)) }
{
    match arg {
        Arg::Constant(Const::Handle) => true,
        Arg::Constant(Const::MethodKind) => true,
        _ => false,
    }
}

/// Whether an instruction is linked at run time: an invokedynamic, or a load of a MethodHandle or MethodType
/// constant (JVMS 5.4.3.5, 5.4.3.6).
pub fn is_dynamic(insn: &Insn) -> bool
    ensures { IsTrue result ↔ IsDynamic insn.now }
{
    insn.op == ops::INVOKEDYNAMIC || is_linked_constant(&insn.arg)
}

/// Whether an operand is a reference to a method of an interface.
fn names_interface_method(arg: &Arg) -> bool
    ensures { IsTrue result ↔ NamesInterfaceMethod arg.now }
{
    match arg {
        Arg::Method(r) => r.interface,
        _ => false,
    }
}

/// Whether an invokestatic or invokespecial names a method of an interface in a class of a major version below 52,
/// the first in which it may (JVMS 4.4.2, 6.5).
pub fn is_too_early(major: u16, insn: &Insn) -> bool
    ensures { IsTrue result ↔ IsTooEarly major insn.now }
{
    major < 52
        && (insn.op == ops::INVOKESTATIC || insn.op == ops::INVOKESPECIAL)
        && names_interface_method(&insn.arg)
}
