ghost use Rattle.std.specs.Prelude.{◌≡◌, IfSome, IfNone};
ghost use Rattle.jv_insn.specs.Forms.{is_category_2};
ghost use Rattle.jv_typing.specs.Typing.{has_operands, IsWordInsn};
ghost use Rattle.jv_verify_words.specs.Parts.{IsWordRow, AreCellsOf};

use jv_table::{Cell, Form, Kind, OpRow, opcode};
use jv_types::{Arg, Const, Insn};

/// The cells that an instruction takes from the stack and gives to it, the topmost last.
#[derive(Clone, Copy, Debug)]
pub struct WordCells {
    pub takes: &'static [Cell],
    pub gives: &'static [Cell],
}

/// Whether a constant is of category 2.
fn is_category_2(constant: &Const) -> bool
    ensures { result ≡ is_category_2 constant.now }
{
    matches!(constant, Const::Long(_) | Const::Double(_))
}

/// Whether these are the operands of an instruction of this layout that works on words.
fn has_operands(form: Form, arg: &Arg) -> bool
    ensures { result ≡ has_operands form arg.now }
{
    match arg {
        Arg::Nothing => matches!(form, Form::Nothing),
        Arg::Local(_) => matches!(form, Form::Local),
        Arg::Small(_) => matches!(form, Form::Small1 | Form::Small2),
        Arg::Inc(_, _) => matches!(form, Form::Inc),
        Arg::Constant(constant) => is_category_2(constant) && matches!(form, Form::LoadTwo),
        Arg::Jump(_) => matches!(form, Form::Jump2 | Form::Jump4),
        Arg::Table { .. } => matches!(form, Form::TableSwitch),
        Arg::Lookup { .. } => matches!(form, Form::LookupSwitch),
        _ => false,
    }
}

/// The row of an instruction that works on words.
fn word_row(insn: &Insn) -> Option<&'static OpRow>
    ensures found { IfSome result (λ row. IsWordRow insn.now row.now) }
    ensures none { IfNone result (IsWordInsn insn.now → ⊥) }
{
    match opcode(insn.op) {
        None => None,
        Some(row) => {
            if matches!(row.kind, Kind::Word) && has_operands(row.form, &insn.arg) {
                Some(row)
            } else {
                None
            }
        }
    }
}

/// The cells of an instruction with this row: those of its constant, or else those of the row.
fn cells_of(row: &'static OpRow, insn: &Insn) -> WordCells
    requires { IsWordRow insn.now row.now }
    ensures { AreCellsOf insn.now result }
{
    static LONG: [Cell; 1] = [Cell::Long];
    static DOUBLE: [Cell; 1] = [Cell::Double];
    match &insn.arg {
        Arg::Constant(Const::Long(_)) => WordCells {
            takes: &[],
            gives: &LONG,
        },
        Arg::Constant(_) => WordCells {
            takes: &[],
            gives: &DOUBLE,
        },
        _ => WordCells {
            takes: row.takes,
            gives: row.gives,
        },
    }
}

/// The cells of an instruction, where it works on words.
pub fn word_cells(insn: &Insn) -> Option<WordCells>
    ensures found { IfSome result (AreCellsOf insn.now) }
    ensures none { IfNone result (IsWordInsn insn.now → ⊥) }
{
    match word_row(insn) {
        Some(row) => Some(cells_of(row, insn)),
        None => None,
    }
}
