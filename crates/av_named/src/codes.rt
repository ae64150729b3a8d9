ghost use Rattle.std.specs.Prelude.{◌≡◌, ◌⊎◌, ℕ, OnOk};
ghost use Rattle.jv_types.specs.declared.instruction.Insn.{Insn as InsnValue};
ghost use Rattle.jv_two_worlds.specs.Types.{EndsIn};
ghost use Rattle.av_collected.specs.Naming.{ArgNames, ConstNames};
ghost use Rattle.av_collected.specs.Types.{HasClass, MentionsClass};
ghost use Rattle.av_named.specs.Appending.{Appends, OfEach};
ghost use Rattle.av_named.specs.Named.{BodyNames, HandlerNames, RowNames};

use crate::members::names_of_method_desc;
use crate::types::{names_of_desc, names_of_type, push_copy, push_some};
use av_collected::MethodBody;
use jv_types::{Arg, Const, FieldRef, Handler, Insn, MethodRef, Name};
use std::alloc::AllocError;

/// Adds the name of the class in a constant, if there is one.
fn names_of_const(constant: &Const, out: &mut Vec<Name>) -> Result<(), AllocError>
    ensures { OnOk result (Appends (ConstNames constant.now) out.old.items out.new.items) }
{
    match constant {
        Const::Class(of) => names_of_type(of, out),
        _ => Ok(()),
    }
}

/// Adds the name of the class that a reference to a field names, and that in the field's type.
fn names_of_field_ref(r: &FieldRef, out: &mut Vec<Name>) -> Result<(), AllocError>
    ensures { OnOk result (Appends (λ name. (r.now.class ≡ name) ⊎ HasClass r.now.desc name) out.old.items out.new.items) }
{
    push_copy(&r.class, out)?;
    names_of_desc(&r.desc, out)
}

/// Adds the name of the class that a reference to a method names, and those in the method's descriptor.
fn names_of_method_ref(r: &MethodRef, out: &mut Vec<Name>) -> Result<(), AllocError>
    ensures { OnOk result (Appends (λ name. EndsIn r.now.class name ⊎ MentionsClass r.now.desc name) out.old.items out.new.items) }
{
    names_of_type(&r.class, out)?;
    names_of_method_desc(&r.desc, out)
}

/// Adds the names of the classes that operands name.
fn names_of_arg(arg: &Arg, out: &mut Vec<Name>) -> Result<(), AllocError>
    ensures { OnOk result (Appends (ArgNames arg.now) out.old.items out.new.items) }
{
    match arg {
        Arg::Constant(constant) => names_of_const(constant, out),
        Arg::Class(of) => names_of_type(of, out),
        Arg::Multi(of, _) => names_of_type(of, out),
        Arg::Field(r) => names_of_field_ref(r, out),
        Arg::Method(r) => names_of_method_ref(r, out),
        _ => Ok(()),
    }
}

/// Adds the names of the classes that these instructions name.
fn names_of_rows(rows: &[(u16, Insn)], out: &mut Vec<Name>) -> Result<(), AllocError>
    ensures { OnOk result (Appends (OfEach RowNames rows.now) out.old.items out.new.items) }
{
    for row in rows {
        names_of_arg(&row.1.arg, out)?;
    }
    Ok(())
}

/// Adds the names of the classes that these handlers catch.
fn names_of_handlers(handlers: &[Handler], out: &mut Vec<Name>) -> Result<(), AllocError>
    ensures { OnOk result (Appends (OfEach HandlerNames handlers.now) out.old.items out.new.items) }
{
    for handler in handlers {
        push_some(handler.catch.as_ref(), out)?;
    }
    Ok(())
}

/// Adds the names of the classes that a code names.
fn names_of_body(method: &MethodBody, out: &mut Vec<Name>) -> Result<(), AllocError>
    ensures { OnOk result (Appends (BodyNames method.now) out.old.items out.new.items) }
{
    names_of_rows(method.body.insns.as_slice(), out)?;
    names_of_handlers(method.body.handlers.as_slice(), out)
}

/// Adds the names of the classes that these codes name.
pub fn names_of_bodies(bodies: &[MethodBody], out: &mut Vec<Name>) -> Result<(), AllocError>
    ensures { OnOk result (Appends (OfEach BodyNames bodies.now) out.old.items out.new.items) }
{
    for method in bodies {
        names_of_body(method, out)?;
    }
    Ok(())
}
