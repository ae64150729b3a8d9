ghost use Rattle.jv_class.specs.ClassTexts.{AreDistinct};
ghost use Rattle.jv_resolve.specs.Members.{HasMethod};
ghost use Rattle.jv_verify.specs.Verified.{HasBody};

use crate::sources::ReadClass;
use anyhow::{Result, bail};
use av_conditions::first_wrong;
use jv_class::ClassFile;
use jv_types::{Body, MethodId, Rule};
use jv_verify::{NoBody, VerifyRefusal, body_of, verify_body};
use jv_world::World;
use std::alloc::Global;

/// What came of a method.
#[derive(Clone, Copy)]
pub enum Outcome {
    /// It has no code.
    NoCode,
    /// It was verified, and has so many instructions.
    Verified { insns: usize },
    /// The reference at an offset doesn't resolve, or is of the wrong kind.
    WrongReference { pc: u16 },
    /// It is refused by a rule at an offset.
    Refused { rule: Rule, pc: u32 },
}

/// Looks at the references of a method, and verifies it.
fn verified(
    alloc: Global,
    world: &World,
    class: &ClassFile,
    id: MethodId,
    body: Body,
) -> Result<Outcome>
    requires method { HasMethod world.now id }
    requires distinct { AreDistinct class.now.pool class.now.methods }
    requires has { HasBody world.now class.now id body }
{
    if let Some(pc) = first_wrong(alloc, world, &body)? {
        return Ok(Outcome::WrongReference { pc });
    }
    match verify_body(alloc, world, class, id, body) {
        Ok(framed) => Ok(Outcome::Verified {
            insns: framed.body.insns.len(),
        }),
        Err(VerifyRefusal::At { rule, pc }) => Ok(Outcome::Refused { rule, pc }),
        Err(VerifyRefusal::Memory) => bail!("out of memory"),
    }
}

/// Decodes the code of a method of a class and verifies it, where the class has code for it.
pub fn outcome_of(alloc: Global, world: &World, class: &ReadClass, id: MethodId) -> Result<Outcome>
    requires { HasMethod world.now id }
{
    match body_of(alloc, world, &class.file, id) {
        Ok(body) => verified(alloc, world, &class.file, id, body),
        Err(NoBody::NoCode) => Ok(Outcome::NoCode),
        Err(NoBody::Length) => bail!("a code that is empty or too long"),
        Err(NoBody::At { pc }) => Ok(Outcome::Refused {
            rule: Rule::CodeForm,
            pc: u32::from(pc),
        }),
        Err(NoBody::Memory) => bail!("out of memory"),
    }
}
