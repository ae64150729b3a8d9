ghost use Rattle.std.specs.Prelude.{◌≡◌};
ghost use Rattle.jv_insn.specs.Effects.{is_load, is_store, local_of};

use jv_table::ops;
use jv_types::Arg;

/// Whether an instruction loads a local variable (JVMS 6.5, iload to aload_3).
pub fn is_load(op: u8) -> bool
    ensures { result ≡ is_load op }
{
    matches!(op, ops::ILOAD..=ops::ALOAD_3)
}

/// Whether an instruction stores into a local variable (JVMS 6.5, istore to astore_3).
pub fn is_store(op: u8) -> bool
    ensures { result ≡ is_store op }
{
    matches!(op, ops::ISTORE..=ops::ASTORE_3)
}

/// The index of the local variable that an instruction names, by its operands or by its opcode alone.
pub fn local_of(op: u8, arg: &Arg) -> u16
    ensures { result ≡ local_of op arg.now }
{
    match arg {
        Arg::Local(local) => *local,
        Arg::Inc(local, _) => *local,
        _ => {
            let first = if op <= ops::ALOAD_3 {
                ops::ILOAD_0
            } else {
                ops::ISTORE_0
            };
            u16::from(op.saturating_sub(first) % 4)
        }
    }
}
