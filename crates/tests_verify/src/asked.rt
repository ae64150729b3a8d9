//! What the verifier answers of a method of a class file.

ghost use Rattle.std.specs.Prelude.{IfOk};
ghost use Rattle.jv_class.specs.ClassTexts.{AreDistinct};
ghost use Rattle.jv_resolve.specs.Members.{HasMethod};

use jv_class::{ClassFile, read_class};
use jv_types::{FramedBody, MethodId};
use jv_verify::{VerifyRefusal, body_of, verify};
use jv_world::World;
use std::alloc::Global;
use std::test::Fail;

/// A class file of some bytes.
fn class_of(alloc: Global, bytes: &[u8]) -> Result<ClassFile, Fail>
    ensures { IfOk result (λ class. AreDistinct class.pool class.methods) }
{
    match read_class(alloc, bytes) {
        Ok(class) => Ok(class),
        Err(_) => Err(Fail::from("a class file")),
    }
}

/// What the verifier answers of a method of a world, by a class file that has its code.
pub fn answer(
    alloc: Global,
    world: &World,
    bytes: &[u8],
    id: MethodId,
) -> Result<Result<FramedBody, VerifyRefusal>, Fail>
    requires { HasMethod world.now id }
{
    let class = class_of(alloc, bytes)?;
    let body = body_of(alloc, world, &class, id)?;
    Ok(verify(alloc, world, &class, id, &body))
}
