ghost use Rattle.std.specs.Prelude.{◌≤◌, length, IfOk};
ghost use Rattle.av_given.specs.Steps.Parts.{IsDecoding};

use jv_attr::CodeAttr;
use jv_class::ClassFile;
use jv_insn::{BadCode, decode};
use jv_types::Body;
use std::alloc::{AllocError, Global};

/// What a code of a class file decodes to, or none where it isn't well formed (JVMS 4.7.3, 4.9.1).
pub fn decoded(
    alloc: Global,
    class: &ClassFile,
    code: &CodeAttr,
) -> Result<Option<Body>, AllocError>
    requires { length code.now.code ≤ 65535 }
    ensures { IfOk result (IsDecoding class.now code.now) }
{
    let bytes = code.code.as_slice();
    let handlers = code.handlers.as_slice();
    match decode(
        alloc,
        bytes,
        &class.pool,
        handlers,
        code.max_stack,
        code.max_locals,
    ) {
        Ok(body) => Ok(Some(body)),
        Err(BadCode::At { pc: _pc }) => Ok(None),
        Err(BadCode::Memory) => Err(AllocError),
    }
}
