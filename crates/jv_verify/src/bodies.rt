ghost use Rattle.std.specs.Prelude.{IfOk, IfErr};
ghost use Rattle.jv_class.specs.ClassTexts.{AreDistinct};
ghost use Rattle.jv_resolve.specs.Members.{HasMethod};
ghost use Rattle.jv_verify.specs.Verified.{HasBody, DecodesTo, HasNoBody, IsWithoutBody};

use crate::codes::code_of;
use crate::no_body::NoBody;
use jv_attr::CodeAttr;
use jv_class::ClassFile;
use jv_insn::{BadCode, decode};
use jv_pool::Pool;
use jv_types::{Body, MethodId};
use jv_world::World;
use std::alloc::Global;

/// The most bytes that a code may have (JVMS 4.7.3).
const MOST_BYTES: usize = 65535;

/// The body of a code, which has at least one byte.
fn decoded(alloc: Global, pool: &Pool, code: &CodeAttr) -> Result<Body, NoBody>
    ensures found { IfOk result (DecodesTo pool.now code.now) }
    ensures refused { IfErr result (HasNoBody pool.now code.now) }
{
    let bytes = code.code.as_slice();
    if bytes.is_empty() || bytes.len() > MOST_BYTES {
        return Err(NoBody::Length);
    }
    let handlers = code.handlers.as_slice();
    match decode(
        alloc,
        bytes,
        pool,
        handlers,
        code.max_stack,
        code.max_locals,
    ) {
        Ok(body) => Ok(body),
        Err(BadCode::At { pc }) => Err(NoBody::At { pc }),
        Err(BadCode::Memory) => Err(NoBody::Memory),
    }
}

/// The body of a method by its class file, as `verify` asks for it: the code that the file has for the method is
/// decoded (JVMS 4.7.3). No two methods of the file share name and descriptor. There is none exactly where it has no
/// code, where that has no byte or more than 65,535, or where it isn't well formed.
pub fn body_of(
    alloc: Global,
    world: &World,
    class: &ClassFile,
    id: MethodId,
) -> Result<Body, NoBody>
    requires method { HasMethod world.now id }
    requires distinct { AreDistinct class.now.pool class.now.methods }
    ensures found { IfOk result (HasBody world.now class.now id) }
    ensures refused { IfErr result (IsWithoutBody world.now class.now id) }
{
    match code_of(alloc, world, class, id)? {
        Some(code) => decoded(alloc, &class.pool, code),
        None => Err(NoBody::NoCode),
    }
}
