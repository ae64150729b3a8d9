ghost use Rattle.std.specs.Prelude.{◌≡◌, ◌<◌, ◌^◌, length, IfOk, All};
ghost use Rattle.calls_form.specs.Reading.{Gives};
ghost use Rattle.calls_form.specs.Classes.{IsBytes, content_of};
ghost use Rattle.calls_form.specs.ClassesBodies.{target_in};
ghost use Rattle.calls_form.specs.ClassesHeads.{each, heading_of, body_at, method_at};

use crate::class_of_heads::Head;
use crate::class_of_types::read_method_desc;
use crate::code_content::{CodeContent, read_code};
use crate::code_steps::read_instructions;
use crate::object_class::{Method, Placed};
use crate::read_error::ReadError;
use crate::target::Target;
use jv_types::{Copied, Seq};
use std::alloc::Global;

/// The instructions of a code, which may have no handlers.
#[tactic(auto, unfolding(crate::specs::ClassesHeads::body_at))]
fn read_body(
    alloc: Global,
    targets: &[Option<Target>],
    code: CodeContent,
) -> Result<Vec<Placed>, ReadError>
    requires { length code.bytes.now < 2 ^ 16 }
    ensures { Gives (λ v. v.items) result (body_at (target_in targets.now) (content_of code.entry)) }
{
    if code.handler_count != 0 {
        return Err(ReadError::Malformed);
    }
    read_instructions(alloc, targets, code.bytes)
}

/// A method of the class.
#[tactic(auto, unfolding(crate::specs::ClassesHeads::method_at))]
fn read_method(
    alloc: Global,
    own: &[u8],
    targets: &[Option<Target>],
    head: &Head,
) -> Result<Method, ReadError>
    ensures gives { Gives (λ m. m) result (method_at own.now (target_in targets.now) (heading_of head.now)) }
    ensures bytes { IfOk result (λ _. IsBytes head.now.code.now) }
{
    let (arguments, result_kind) = read_method_desc(alloc, own, head.access, head.desc.as_slice())?;
    let code = read_code(head.code)?;
    let body = read_body(alloc, targets, code)?;
    Ok(Method {
        access: head.access,
        name: head.name.copy()?,
        desc: head.desc.copy()?,
        arguments: Seq::from_vec(arguments),
        result: result_kind,
        max_stack: code.max_stack,
        max_locals: code.max_locals,
        code: Seq::from_vec(body),
    })
}

/// The methods of the class, in the order of the file.
pub fn read_methods(
    alloc: Global,
    own: &[u8],
    targets: &[Option<Target>],
    heads: &[Head],
) -> Result<Vec<Method>, ReadError>
    ensures gives { Gives (λ v. v.items) result
        (each (λ h. method_at own.now (target_in targets.now) (heading_of h)) heads.now) }
    ensures bytes { IfOk result (λ _. All (λ h. IsBytes h.code.now) heads.now) }
{
    let mut methods = Vec::new(alloc);
    for head in heads {
        methods.push(read_method(alloc, own, targets, head)?)?;
    }
    Ok(methods)
}
