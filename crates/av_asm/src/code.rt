ghost use Rattle.std.specs.Prelude.{◌≡◌, map, None, Some, IfOk};
ghost use Rattle.jv_insn.specs.Entries.{Grows};
ghost use Rattle.av_asm.specs.Finishing.{raw_of, code_of, IsCodeOf, HasMaps, MayWrite};
ghost use Rattle.av_asm.specs.Planning.{plan_in};

use crate::maps::map_attrs;
use crate::targets::targets_of;
use jv_attr::CodeAttr;
use jv_insn::{EncodeRefusal, encode};
use jv_pool::PoolWriter;
use jv_types::{FramedBody, Handler, RawHandler, Seq};
use std::alloc::{AllocError, Global};

/// An entry of the exception table that catches all throwables.
fn raw_of(handler: &Handler) -> RawHandler
    ensures { result ≡ raw_of handler.now }
{
    RawHandler {
        start: handler.start,
        end: handler.end,
        target: handler.target,
        catch: 0,
    }
}

/// An exception table each of whose entries catches all throwables. Only memory can be wanting.
fn raw_handlers(alloc: Global, handlers: &[Handler]) -> Result<Vec<RawHandler>, AllocError>
    ensures { IfOk result (λ raws. raws.items ≡ map raw_of handlers.now) }
{
    handlers
        .iter()
        .map(|handler| raw_of(handler))
        .collect(alloc)
}

/// The code attribute of a method whose handlers catch all throwables, with a full map of the frame at each
/// target.
pub fn code_attr(
    alloc: Global,
    framed: &FramedBody,
    pool: &mut PoolWriter,
) -> Result<CodeAttr, EncodeRefusal>
    requires { MayWrite pool.old framed.now }
    ensures code { IfOk result (λ attr. code_of (plan_in framed.now) pool.old ≡ Some (attr, pool.new)) }
    ensures decodes { IfOk result (λ attr. IsCodeOf pool.new attr framed.now) }
    ensures maps { IfOk result (λ attr. HasMaps pool.new attr framed.now) }
    ensures full { result ≡ Err EncodeRefusal.PoolFull → code_of (plan_in framed.now) pool.old ≡ None }
    ensures never_long { result ≡ Err EncodeRefusal.TooLong → ⊥ }
    ensures grown { Grows pool.old pool.new }
{
    let insns = framed.body.insns.as_slice();
    let targets = targets_of(alloc, insns, framed.body.handlers.as_slice())?;
    let handlers = raw_handlers(alloc, framed.body.handlers.as_slice())?;
    match encode(alloc, &framed.body, pool) {
        Ok(code) => match map_attrs(alloc, pool, &targets, framed.frames.as_slice()) {
            Ok(attrs) => Ok(CodeAttr {
                max_stack: framed.body.max_stack,
                max_locals: framed.body.max_locals,
                code: Seq::from_vec(code),
                handlers: Seq::from_vec(handlers),
                attrs: Seq::from_vec(attrs),
            }),
            Err(e) => Err(e),
        },
        Err(e) => Err(e),
    }
}
