ghost use Rattle.std.specs.Prelude.{◌≡◌, ◌≤◌, IfOk, IfErr, length};
ghost use Rattle.jv_insn.specs.Decoding.{Decodes, IsLeastFailure, BadAt};

use crate::fault::BadCode;
use crate::handlers::{handlers_of, lesser};
use crate::insns::insns_of;
use crate::layout::lay;
use jv_pool::Pool;
use jv_types::{Body, RawHandler, Seq};
use std::alloc::Global;

/// The body that a code spells with its handlers over a constant pool (JVMS 4.7.3, 4.9.1, 6.5). It is
/// refused exactly where the code isn't well formed, `At` the least offset at which it fails: that of an
/// instruction that names what it may not name, the start of a handler that is none, or a place where
/// bytes are left and no instruction stands.
pub fn decode(
    alloc: Global,
    code: &[u8],
    pool: &Pool,
    handlers: &[RawHandler],
    max_stack: u16,
    max_locals: u16,
) -> Result<Body, BadCode>
    requires { length code.now ≤ 65535 }
    ensures decoded { IfOk result (λ body. Decodes pool.now max_stack max_locals code.now handlers.now body) }
    ensures bad { IfErr result (λ e. BadAt (λ pc. IsLeastFailure pool.now max_locals code.now handlers.now pc) e) }
{
    let laid = lay(alloc, code)?;
    let rows = laid.rows.as_slice();
    let length = code.len() as u16;
    let insns = insns_of(alloc, pool, max_locals, rows)?;
    let handlers = handlers_of(alloc, pool, length, rows, handlers)?;
    match (insns, handlers, laid.end) {
        (Ok(insns), Ok(handlers), None) => Ok(Body {
            max_stack,
            max_locals,
            length,
            insns: Seq::from_vec(insns),
            handlers,
        }),
        (Ok(_), Ok(_), Some(pc)) => Err(BadCode::At { pc }),
        (Ok(_), Err(pc), end) => Err(BadCode::At {
            pc: lesser(end, pc),
        }),
        (Err(pc), Ok(_), end) => Err(BadCode::At {
            pc: lesser(end, pc),
        }),
        (Err(pc), Err(other), end) => Err(BadCode::At {
            pc: lesser(Some(pc), lesser(end, other)),
        }),
    }
}
