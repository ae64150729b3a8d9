ghost use Rattle.std.specs.Prelude.{◌≡◌, IfOk, IfErr};
ghost use Rattle.jv_attr.specs.declared.attr.CodeAttr.{CodeAttr as CodeValue};
ghost use Rattle.jv_class.specs.declared.class_file.Member.{Member as MemberValue};
ghost use Rattle.jv_class.specs.ClassTexts.{AreDistinct};
ghost use Rattle.jv_resolve.specs.Members.{HasMethod};
ghost use Rattle.jv_verify.specs.Verified.{HasBody};
ghost use Rattle.av_stops.specs.Bodies.{HasDecoded};
ghost use Rattle.av_stops.specs.MethodRules.{IsAccepted};
ghost use Rattle.av_method_rules.specs.Stopping.{IsMethodStop};

use crate::outcome::MethodStop;
use av_insn_rules::first_failing;
use jv_class::ClassFile;
use jv_types::{Body, FramedBody, MethodId};
use jv_verify::{VerifyRefusal, verify_body};
use jv_world::World;
use std::alloc::Global;

/// A method with its table of frames, where each of its instructions keeps the rules on single ones, its stack map is
/// well formed and its types fit. `body` is what the method's code decodes to, and is not copied.
///
/// # Errors
///
/// The first of these rules that fails, at the least offset at which it does. `Memory` where memory is wanting.
pub fn frames_of_method(
    alloc: Global,
    world: &World,
    class: &ClassFile,
    id: MethodId,
    body: Body,
) -> Result<FramedBody, MethodStop>
    requires method { HasMethod world.now id }
    requires distinct { AreDistinct class.now.pool class.now.methods }
    requires has { HasBody world.now class.now id body }
    ensures accepted { IfOk result (λ framed. (member : MemberValue) (code : CodeValue) → HasDecoded class.now member code body
        → IsAccepted world.now class.now id member framed) }
    ensures method { IfOk result (λ framed. framed.method ≡ id) }
    ensures stopped { IfErr result (λ stop. (member : MemberValue) (code : CodeValue) → HasDecoded class.now member code body
        → IsMethodStop world.now class.now id member stop) }
{
    if let Some((rule, pc)) = first_failing(alloc, world, id.class, class.major, &body)? {
        return Err(MethodStop::At {
            rule,
            pc: u32::from(pc),
        });
    }
    match verify_body(alloc, world, class, id, body) {
        Ok(framed) => Ok(framed),
        Err(VerifyRefusal::At { rule, pc }) => Err(MethodStop::At { rule, pc }),
        Err(VerifyRefusal::Memory) => Err(MethodStop::Memory),
    }
}
