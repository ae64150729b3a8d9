ghost use Rattle.std.specs.Prelude.{◌≡◌, ◌≤◌, length, IfOk, IfErr, IfSome};
ghost use Rattle.jv_class.specs.ClassTexts.{is_native};
ghost use Rattle.jv_insn.specs.Decoding.{Decodes};
ghost use Rattle.av_method_rules.specs.Files.{IsMethodOfFile};
ghost use Rattle.av_method_rules.specs.Stopping.{IsMethodStop, IsPassed};
ghost use Rattle.av_method_rules.specs.Steps.Decoded.{IsCodeStop};

use crate::outcome::MethodStop;
use crate::typing::frames_of_method;
use bitflags::Flags;
use jv_attr::CodeAttr;
use jv_class::{ClassFile, Member, method_code};
use jv_insn::{BadCode, decode};
use jv_types::{Access, Body, FramedBody, MethodId, Rule};
use jv_world::World;
use std::alloc::Global;

/// Whether a method is native (JVMS table 4.6-A).
fn is_native(member: &Member) -> bool
    ensures { result ≡ is_native member.now }
{
    Access(member.access).contains(Access::NATIVE)
}

/// What a method's code decodes to (JVMS 4.7.3).
fn decoded(alloc: Global, class: &ClassFile, code: &CodeAttr) -> Result<Body, MethodStop>
    requires { length code.now.code ≤ 65535 }
    ensures decoded { IfOk result (Decodes class.now.pool code.now.max_stack code.now.max_locals code.now.code code.now.handlers) }
    ensures stopped { IfErr result (IsCodeStop class.now code.now) }
{
    let bytes = code.code.as_slice();
    let handlers = code.handlers.as_slice();
    match decode(
        alloc,
        bytes,
        &class.pool,
        handlers,
        code.max_stack,
        code.max_locals,
    ) {
        Ok(body) => Ok(body),
        Err(BadCode::At { pc }) => Err(MethodStop::At {
            rule: Rule::CodeForm,
            pc: u32::from(pc),
        }),
        Err(BadCode::Memory) => Err(MethodStop::Memory),
    }
}

/// A method of a class file with its table of frames, or none where it has no code: it isn't native, its code is well
/// formed, and its instructions, its stack map and its types keep their rules. The world has the class of the file
/// under the number in `id`, and `member` is the method there.
///
/// # Errors
///
/// The first of these rules that fails, at the least offset at which it does. `Memory` where memory is wanting.
pub fn check_method(
    alloc: Global,
    world: &World,
    class: &ClassFile,
    id: MethodId,
    member: &Member,
) -> Result<Option<FramedBody>, MethodStop>
    requires { IsMethodOfFile world.now class.now id member.now }
    ensures passed { IfOk result (IsPassed world.now class.now id member.now) }
    ensures method { IfOk result (λ passed. IfSome passed (λ framed. framed.method ≡ id)) }
    ensures stopped { IfErr result (IsMethodStop world.now class.now id member.now) }
{
    if is_native(member) {
        return Err(MethodStop::At {
            rule: Rule::NativeMethod,
            pc: 0,
        });
    }
    let Some(code) = method_code(member) else {
        return Ok(None);
    };
    let body = decoded(alloc, class, code)?;
    let framed = frames_of_method(alloc, world, class, id, body)?;
    Ok(Some(framed))
}
