ghost use Rattle.std.specs.Prelude.{◌≡◌};
ghost use Rattle.calls_form.specs.Reading.{Gives, u1_at, u2_at, u4_at, bytes_at};

use crate::read_error::ReadError;

/// A number of one byte, and the bytes after it.
pub fn read_u1(bytes: &[u8]) -> Result<(u8, &[u8]), ReadError>
    ensures { Gives (λ x. (x.0, x.1.now)) result (u1_at bytes.now) }
{
    match bytes.split_first() {
        None => Err(ReadError::Malformed),
        Some((first, rest)) => Ok((*first, rest)),
    }
}

/// A number of two bytes, the high one first (JVMS 4), and the bytes after it.
pub fn read_u2(bytes: &[u8]) -> Result<(u16, &[u8]), ReadError>
    ensures { Gives (λ x. (x.0, x.1.now)) result (u2_at bytes.now) }
{
    if bytes.len() < 2 {
        return Err(ReadError::Malformed);
    }
    let (front, rest) = bytes.split_at(2);
    Ok((u16::from_be_bytes([front[0], front[1]]), rest))
}

/// A number of four bytes, the high one first (JVMS 4), and the bytes after it.
pub fn read_u4(bytes: &[u8]) -> Result<(u32, &[u8]), ReadError>
    ensures { Gives (λ x. (x.0, x.1.now)) result (u4_at bytes.now) }
{
    if bytes.len() < 4 {
        return Err(ReadError::Malformed);
    }
    let (front, rest) = bytes.split_at(4);
    let number = u32::from_be_bytes([front[0], front[1], front[2], front[3]]);
    Ok((number, rest))
}

/// The next `count` bytes, and the bytes after them.
pub fn read_bytes(bytes: &[u8], count: usize) -> Result<(&[u8], &[u8]), ReadError>
    ensures { Gives (λ x. (x.0.now, x.1.now)) result (bytes_at bytes.now count) }
{
    if bytes.len() < count {
        return Err(ReadError::Malformed);
    }
    Ok(bytes.split_at(count))
}
