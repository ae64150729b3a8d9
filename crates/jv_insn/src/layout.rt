ghost use Rattle.std.specs.Prelude.{◌≤◌, IfOk, length};
ghost use Rattle.jv_insn.specs.Layouts.{Lays};

use crate::reader::read_insn;
use crate::written::Written;
use jv_bytes::Cursor;
use jv_read::ReadFault;
use std::alloc::{AllocError, Global};

/// The instructions of a code as they are written, each with its offset, and the offset at which the code
/// breaks off, if it does.
#[derive(Debug, Drop)]
pub struct Laid {
    pub rows: Vec<(u16, Written)>,
    pub end: Option<u16>,
}

/// The instructions of a code, one behind the other.
pub fn lay(alloc: Global, code: &[u8]) -> Result<Laid, AllocError>
    requires { length code.now ≤ 65535 }
    ensures { IfOk result (λ laid. Lays 0 code.now laid.rows.items laid.end) }
{
    let mut cursor = Cursor::new(code);
    let mut rows = Vec::new(alloc);
    while cursor.left() > 0 {
        let pc = code.len() - cursor.left();
        match read_insn(alloc, &mut cursor, pc) {
            Ok(written) => rows.push((pc as u16, written))?,
            Err(ReadFault::Bad) => {
                return Ok(Laid {
                    rows,
                    end: Some(pc as u16),
                });
            }
            Err(ReadFault::Memory) => return Err(AllocError),
        }
    }
    Ok(Laid { rows, end: None })
}
