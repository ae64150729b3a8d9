ghost use Rattle.std.specs.Prelude.{◌≡◌, IfOk, IfErr};
ghost use Rattle.jv_types.specs.declared.rule.Rule.TheVariants as rules;
ghost use Rattle.jv_class.specs.ClassTexts.{AreDistinct};
ghost use Rattle.jv_resolve.specs.Members.{HasMethod};
ghost use Rattle.jv_frames.specs.Maps.{AreFramesOf, FailsFirstAt};
ghost use Rattle.jv_typing.specs.TypeSafe.{IsTypeSafe, FailsLeastAt};
ghost use Rattle.jv_verify.specs.Verified.{HasBody, IsVerified, IsCause};
ghost use Rattle.jv_verify.specs.Steps.Checking.{IsReady, RefusedBy};

use crate::codes::code_of;
use crate::no_table::NoTable;
use crate::refusal::VerifyRefusal;
use crate::table::table_of;
use jv_attr::CodeAttr;
use jv_class::ClassFile;
use jv_frames::{BadMap, frames_of};
use jv_pool::Pool;
use jv_types::{Body, Copied, Frame, FramedBody, MethodId, Rule, Seq};
use jv_world::World;
use std::alloc::Global;

/// The frames of a method's stack map.
fn maps_of(
    alloc: Global,
    world: &World,
    id: MethodId,
    pool: &Pool,
    code: &CodeAttr,
    body: &Body,
) -> Result<Vec<(u32, Frame)>, VerifyRefusal>
    requires { HasMethod world.now id }
    ensures found { IfOk result (λ maps. AreFramesOf world.now id pool.now code.now body.now maps.items) }
    ensures refused { IfErr result (RefusedBy rules.StackMap (FailsFirstAt world.now id pool.now code.now body.now)) }
{
    match frames_of(alloc, world, id, pool, code, body) {
        Ok(maps) => Ok(maps),
        Err(BadMap::At { pc }) => Err(VerifyRefusal::At {
            rule: Rule::StackMap,
            pc,
        }),
        Err(BadMap::Memory) => Err(VerifyRefusal::Memory),
    }
}

/// A method's body with its table of frames by these maps.
fn framed(
    alloc: Global,
    world: &World,
    id: MethodId,
    body: Body,
    maps: &[(u32, Frame)],
) -> Result<FramedBody, VerifyRefusal>
    requires method { HasMethod world.now id }
    requires ready { IsReady body maps.now }
    ensures method { IfOk result (λ framed. framed.method ≡ id) }
    ensures body { IfOk result (λ framed. framed.body ≡ body) }
    ensures typed { IfOk result (λ framed. IsTypeSafe world.now id body maps.now framed.frames) }
    ensures refused { IfErr result (RefusedBy rules.TypeRule (FailsLeastAt world.now id body maps.now)) }
{
    match table_of(alloc, world, id, &body, maps) {
        Ok(rows) => Ok(FramedBody {
            method: id,
            body,
            frames: Seq::from_vec(rows),
        }),
        Err(NoTable::At { pc }) => Err(VerifyRefusal::At {
            rule: Rule::TypeRule,
            pc: u32::from(pc),
        }),
        Err(NoTable::Memory) => Err(VerifyRefusal::Memory),
    }
}

/// Verifies a method of a class file, as `verify` does, and takes its body, which is not copied.
pub fn verify_body(
    alloc: Global,
    world: &World,
    class: &ClassFile,
    id: MethodId,
    body: Body,
) -> Result<FramedBody, VerifyRefusal>
    requires method { HasMethod world.now id }
    requires distinct { AreDistinct class.now.pool class.now.methods }
    requires has { HasBody world.now class.now id body }
    ensures verified { IfOk result (IsVerified world.now class.now id body) }
    ensures refused { IfErr result (IsCause world.now class.now id body) }
{
    // the class file has the method's code, so the other way is never gone
    let Some(code) = code_of(alloc, world, class, id)? else {
        return Err(VerifyRefusal::Memory);
    };
    match maps_of(alloc, world, id, &class.pool, code, &body) {
        Ok(maps) => framed(alloc, world, id, body, maps.as_slice()),
        Err(refusal) => Err(refusal),
    }
}

/// Verifies a method of a class file (JVMS 4.10.1): its body with the one frame before each instruction that its
/// stack map and its instructions force. `class` declares the method `id` of the world with the code that `body`
/// was decoded from, and no two of its methods share name and descriptor. It is refused exactly where the method has no such table: by the rule on stack maps at
/// the first frame of the map that is none, or else by the rule on types at the least offset at which no frame
/// is forced, the instruction has no typing on its frame, or what it leaves doesn't fit where it goes.
pub fn verify(
    alloc: Global,
    world: &World,
    class: &ClassFile,
    id: MethodId,
    body: &Body,
) -> Result<FramedBody, VerifyRefusal>
    requires method { HasMethod world.now id }
    requires distinct { AreDistinct class.now.pool class.now.methods }
    requires has { HasBody world.now class.now id body.now }
    ensures verified { IfOk result (IsVerified world.now class.now id body.now) }
    ensures refused { IfErr result (IsCause world.now class.now id body.now) }
{
    let whole = body.copy()?;
    verify_body(alloc, world, class, id, whole)
}
