ghost use Rattle.std.specs.Prelude.{◌≡◌, ◌<◌, ◌^◌, length, IfOk};
ghost use Rattle.calls_form.specs.Reading.{Gives};
ghost use Rattle.calls_form.specs.Classes.{code_bytes_at, handlers_at, content_of, code_of, IsBytes};

use crate::attributes::pass_counted;
use crate::number::{read_bytes, read_u2, read_u4};
use crate::read_error::ReadError;

/// A code of 1 to 65535 bytes, and what follows it.
#[tactic(auto, unfolding(crate::specs::Classes::code_bytes_at))]
fn read_code_bytes(bytes: &[u8]) -> Result<(&[u8], &[u8]), ReadError>
    ensures gives { Gives (λ x. (x.0.now, x.1.now)) result (code_bytes_at bytes.now) }
    ensures short { IfOk result (λ x. length x.0.now < 2 ^ 16) }
{
    let (size, rest) = read_u4(bytes)?;
    if size == 0 || size > 65535 {
        return Err(ReadError::Malformed);
    }
    read_bytes(rest, size as usize)
}

/// How many handlers there are, each of which takes eight bytes, and what follows them.
#[tactic(auto, unfolding(crate::specs::Classes::handlers_at))]
fn pass_handlers(bytes: &[u8]) -> Result<(u16, &[u8]), ReadError>
    ensures { Gives (λ x. (x.0, x.1.now)) result (handlers_at bytes.now) }
{
    let (count, rest) = read_u2(bytes)?;
    let (_handlers, rest) = read_bytes(rest, 8 * usize::from(count))?;
    Ok((count, rest))
}

/// What is kept of the content of an attribute `Code`.
#[derive(Clone, Copy)]
pub struct CodeContent<'a> {
    pub max_stack: u16,
    pub max_locals: u16,
    pub bytes: &'a [u8],
    pub handler_count: u16,
}

/// What is kept of the content of an attribute `Code` (JVMS 4.7.3). No byte may follow.
#[tactic(auto, unfolding(crate::specs::Classes::code_of))]
pub fn read_code(content: &[u8]) -> Result<CodeContent<'_>, ReadError>
    ensures gives { Gives content_of result (code_of content.now) }
    ensures bytes { IsBytes content.now }
    ensures short { IfOk result (λ c. length c.bytes.now < 2 ^ 16) }
{
    let (max_stack, rest) = read_u2(content)?;
    let (max_locals, rest) = read_u2(rest)?;
    let (bytes, rest) = read_code_bytes(rest)?;
    let (handler_count, rest) = pass_handlers(rest)?;
    let rest = pass_counted(rest)?;
    if !rest.is_empty() {
        return Err(ReadError::Malformed);
    }
    Ok(CodeContent {
        max_stack,
        max_locals,
        bytes,
        handler_count,
    })
}
