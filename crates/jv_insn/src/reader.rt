ghost use Rattle.std.specs.Prelude.{◌≡◌, ◌<◌};
ghost use Rattle.std.specs.Ordering.{nat_cmp};
ghost use Rattle.jv_table.specs.Rows.{row_of};
ghost use Rattle.jv_table.specs.CodeRows.{newarray_rows};
ghost use Rattle.jv_insn.specs.Layouts.{layout_of, wide_layout_of, rises_above, values_rise, is_allowed};
ghost use Rattle.jv_read.specs.Reading.{Gives};
ghost use Rattle.jv_insn.specs.Steps.Reading.{laid_at, plain_at, wide_at, written_at};

use crate::switches::{read_lookup, read_table};
use crate::written::{Operands, Written};
use jv_bytes::Cursor;
use jv_read::{ReadFault, read_u1, read_u2, read_u4};
use jv_table::{Form, newarray_code, opcode, ops};
use std::alloc::Global;

/// The operands of a form, which begin at an offset of the code.
#[tactic(auto, unfolding(crate::specs::Steps::Reading::laid_at, crate::specs::Steps::Reading::operands_at, crate::specs::Steps::Reading::one_at, crate::specs::Steps::Reading::two_at, crate::specs::Steps::Reading::three_at))]
fn read_operands(
    alloc: Global,
    cursor: &mut Cursor,
    form: Form,
    at: usize,
) -> Result<Operands, ReadFault>
    ensures { Gives (λ x. x) result cursor.new (laid_at (layout_of form) at cursor.old) }
{
    match form {
        Form::Nothing => Ok(Operands::Nothing),
        Form::Local => Ok(Operands::Local(u16::from(read_u1(cursor)?))),
        Form::Small1 => Ok(Operands::Small(i16::from(read_u1(cursor)?.cast_signed()))),
        Form::Small2 => Ok(Operands::Small(read_u2(cursor)?.cast_signed())),
        Form::Inc => {
            let local = read_u1(cursor)?;
            let by = read_u1(cursor)?;
            Ok(Operands::Inc(u16::from(local), i16::from(by.cast_signed())))
        }
        Form::Load1 => Ok(Operands::Index(u16::from(read_u1(cursor)?))),
        Form::Load2 | Form::LoadTwo | Form::Class | Form::Field | Form::Method => {
            Ok(Operands::Index(read_u2(cursor)?))
        }
        Form::InterfaceMethod => {
            let index = read_u2(cursor)?;
            let words = read_u1(cursor)?;
            let zero = read_u1(cursor)?;
            Ok(Operands::Called(index, words, zero))
        }
        Form::Dynamic => {
            let index = read_u2(cursor)?;
            let first = read_u1(cursor)?;
            let second = read_u1(cursor)?;
            Ok(Operands::Site(index, first, second))
        }
        Form::NewPrim => Ok(Operands::NewPrim(read_u1(cursor)?)),
        Form::Multi => {
            let index = read_u2(cursor)?;
            let dims = read_u1(cursor)?;
            Ok(Operands::Multi(index, dims))
        }
        Form::Jump2 => Ok(Operands::Jump(i32::from(read_u2(cursor)?.cast_signed()))),
        Form::Jump4 => Ok(Operands::Jump(read_u4(cursor)?.cast_signed())),
        Form::TableSwitch => read_table(alloc, cursor, at),
        Form::LookupSwitch => read_lookup(alloc, cursor, at),
        Form::Wide => Err(ReadFault::Bad),
    }
}

/// The operands of a form under wide.
#[tactic(auto, unfolding(crate::specs::Steps::Reading::laid_at, crate::specs::Steps::Reading::operands_at, crate::specs::Steps::Reading::one_at, crate::specs::Steps::Reading::two_at))]
fn read_wide_operands(cursor: &mut Cursor, op: u8, form: Form) -> Result<Operands, ReadFault>
    ensures { Gives (λ x. x) result cursor.new (laid_at (wide_layout_of op form) 0 cursor.old) }
{
    match form {
        Form::Local if op != ops::RET => Ok(Operands::Local(read_u2(cursor)?)),
        Form::Inc => {
            let local = read_u2(cursor)?;
            let by = read_u2(cursor)?;
            Ok(Operands::Inc(local, by.cast_signed()))
        }
        _ => Err(ReadFault::Bad),
    }
}

/// Whether the values of a lookupswitch rise.
fn values_rise(cases: &[(i32, i32)]) -> bool
    ensures { result ≡ values_rise cases.now }
{
    let Some((first, rest)) = cases.split_first() else {
        return true;
    };
    let mut last = first.0;
    for case in rest {
        if case.0 <= last {
            return false;
        }
        last = case.0;
    }
    true
}

/// Whether operands keep what is asked of them beside their layout.
fn is_allowed(operands: &Operands) -> bool
    ensures { result ≡ is_allowed operands.now }
{
    match operands {
        Operands::NewPrim(code) => newarray_code(*code).is_some(),
        Operands::Multi(_, dims) => *dims > 0,
        Operands::Lookup { cases, .. } => values_rise(cases.as_slice()),
        _ => true,
    }
}

/// An instruction whose opcode was read, and isn't that of wide.
#[tactic(auto, unfolding(crate::specs::Steps::Reading::plain_at, crate::specs::Steps::Reading::insn_of))]
fn read_plain(alloc: Global, cursor: &mut Cursor, pc: usize, op: u8) -> Result<Written, ReadFault>
    requires { pc < 65536 }
    ensures { Gives (λ x. x) result cursor.new (plain_at pc op cursor.old) }
{
    let Some(row) = opcode(op) else {
        return Err(ReadFault::Bad);
    };
    let operands = read_operands(alloc, cursor, row.form, pc + 1)?;
    if !is_allowed(&operands) {
        return Err(ReadFault::Bad);
    }
    Ok(Written {
        op,
        wide: false,
        operands,
    })
}

/// An instruction behind the opcode of wide.
#[tactic(auto, unfolding(crate::specs::Steps::Reading::wide_at, crate::specs::Steps::Reading::insn_of))]
fn read_wide(cursor: &mut Cursor) -> Result<Written, ReadFault>
    ensures { Gives (λ x. x) result cursor.new (wide_at cursor.old) }
{
    let op = read_u1(cursor)?;
    let Some(row) = opcode(op) else {
        return Err(ReadFault::Bad);
    };
    let operands = read_wide_operands(cursor, op, row.form)?;
    if !is_allowed(&operands) {
        return Err(ReadFault::Bad);
    }
    Ok(Written {
        op,
        wide: true,
        operands,
    })
}

/// The next instruction, which starts at an offset of the code (JVMS 6.5). It is refused `Bad` where no
/// instruction stands there.
#[tactic(auto, unfolding(crate::specs::Steps::Reading::written_at))]
pub fn read_insn(alloc: Global, cursor: &mut Cursor, pc: usize) -> Result<Written, ReadFault>
    requires { pc < 65536 }
    ensures { Gives (λ x. x) result cursor.new (written_at pc cursor.old) }
{
    let op = read_u1(cursor)?;
    if op == ops::WIDE {
        read_wide(cursor)
    } else {
        read_plain(alloc, cursor, pc, op)
    }
}
