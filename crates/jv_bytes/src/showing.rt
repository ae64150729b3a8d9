ghost use Rattle.std.specs.Prelude.{◌≡◌, ℕ, ◌<◌, IfOk};
ghost use Rattle.jv_bytes.specs.Shown.{capital_digit, stays, shown_byte, shown_text};

use std::alloc::{AllocError, Global};
use std::marker::Model;

/// The shown form of one byte, which takes no memory. Clauses see it as the list of its bytes: the
/// byte itself, or `%` and two capital hexadecimal digits.
#[derive(Debug, Drop)]
pub struct ShownByte {
    bytes: [u8; 3],
    len: usize,
}

impl Model for ShownByte {
    ghost use Rattle.std.specs.Prelude.{List, ℕ, ◌≤◌, take};

    ghost Value = { List ℕ };

    ghost view = { λ s. take s.len s.bytes };

    ghost invariant = { λ s. s.len ≤ 3 };
}

impl ShownByte {
    /// The shown form of this byte.
    pub fn new(byte: u8) -> ShownByte
        ensures { result ≡ shown_byte byte }
    {
        if is_shown_as_it_is(byte) {
            ShownByte {
                bytes: [byte, 0, 0],
                len: 1,
            }
        } else {
            ShownByte {
                bytes: [b'%', capital_digit(byte / 16), capital_digit(byte % 16)],
                len: 3,
            }
        }
    }

    /// The bytes of the shown form.
    pub fn as_slice(&self) -> &[u8]
        ensures { result.now ≡ self.now }
    {
        &self.bytes[..self.len]
    }
}

/// Whether a byte stands for itself in a shown text.
fn is_shown_as_it_is(byte: u8) -> bool
    ensures { result ≡ stays byte }
{
    0x21 <= byte && byte <= 0x7e && byte != b'%'
}

/// The capital hexadecimal digit of a number below sixteen.
fn capital_digit(number: u8) -> u8
    requires { number < 16 }
    ensures { result ≡ capital_digit number }
{
    if number < 10 {
        b'0' + number
    } else {
        b'A' + (number - 10)
    }
}

/// The shown form of a text: each byte outside 0x21 to 0x7E and each `%` becomes `%` and two capital
/// hexadecimal digits, and the rest stays. Only memory can be wanting.
pub fn shown(alloc: Global, bytes: &[u8]) -> Result<Vec<u8>, AllocError>
    ensures { IfOk result (λ text. text.items ≡ shown_text bytes.now) }
{
    let mut text = Vec::new(alloc);
    for byte in bytes {
        text.extend_from_slice(ShownByte::new(*byte).as_slice())?;
    }
    Ok(text)
}
