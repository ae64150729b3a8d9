ghost use Rattle.std.specs.Prelude.{◌≡◌, ◌<◌, ◌↔◌, ℕ, List, [], ◌∷◌, ◌++◌, length, take, drop, IsNone, IfSome, IfNone, OnSome};
ghost use Rattle.jv_bytes.specs.Numbers.{number_in, number_text};

use byteorder::{BigEndian, ByteOrder};
use std::marker::Model;

/// A place in bytes that are read from front to back. Clauses see the bytes that are left. A call that
/// finds too few of them leaves the cursor as it was.
#[derive(Debug, Drop)]
pub struct Cursor<'a> {
    bytes: &'a [u8],
}

impl<'a> Model for Cursor<'a> {
    ghost use Rattle.std.specs.Prelude.{List, ℕ};

    ghost Value = { List ℕ };

    ghost view = { λ c. c.bytes.now };
}

impl<'a> Cursor<'a> {
    /// A cursor at the front of these bytes.
    pub fn new(bytes: &'a [u8]) -> Cursor<'a>
        ensures { result ≡ bytes.now }
    {
        Cursor { bytes }
    }

    /// How many bytes are left.
    pub fn left(&self) -> usize
        ensures { result ≡ length self.now }
    {
        self.bytes.len()
    }

    /// The next byte. There is none exactly where no byte is left.
    pub fn u1(&mut self) -> Option<u8>
        ensures found { IfSome result (λ byte. self.old ≡ byte ∷ self.new) }
        ensures none { IsNone result ↔ (self.old ≡ []) }
        ensures stays { IfNone result (self.new ≡ self.old) }
    {
        let (first, rest) = self.bytes.split_first()?;
        self.bytes = rest;
        Some(*first)
    }

    /// The number in the next two bytes, the highest first. There is none exactly where fewer bytes
    /// are left.
    pub fn u2(&mut self) -> Option<u16>
        ensures found { IfSome result (λ number. self.old ≡ number_text 2 number ++ self.new) }
        ensures read { IfSome result (λ number. number ≡ number_in 2 self.old) }
        ensures rest { OnSome result (self.new ≡ drop 2 self.old) }
        ensures none { IsNone result ↔ (length self.old < 2) }
        ensures stays { IfNone result (self.new ≡ self.old) }
    {
        let bytes = self.take(2)?;
        Some(u16_of(bytes))
    }

    /// The number in the next four bytes, the highest first. There is none exactly where fewer bytes
    /// are left.
    pub fn u4(&mut self) -> Option<u32>
        ensures found { IfSome result (λ number. self.old ≡ number_text 4 number ++ self.new) }
        ensures read { IfSome result (λ number. number ≡ number_in 4 self.old) }
        ensures rest { OnSome result (self.new ≡ drop 4 self.old) }
        ensures none { IsNone result ↔ (length self.old < 4) }
        ensures stays { IfNone result (self.new ≡ self.old) }
    {
        let bytes = self.take(4)?;
        Some(u32_of(bytes))
    }

    /// The next n bytes. There are none exactly where fewer are left.
    pub fn take(&mut self, n: usize) -> Option<&'a [u8]>
        ensures found { IfSome result (λ bytes. self.old ≡ bytes.now ++ self.new) }
        ensures front { IfSome result (λ bytes. bytes.now ≡ take n self.old) }
        ensures len { IfSome result (λ bytes. length bytes.now ≡ n) }
        ensures rest { OnSome result (self.new ≡ drop n self.old) }
        ensures none { IsNone result ↔ (length self.old < n) }
        ensures stays { IfNone result (self.new ≡ self.old) }
    {
        if self.bytes.len() < n {
            return None;
        }
        let (front, rest) = self.bytes.split_at(n);
        self.bytes = rest;
        Some(front)
    }
}

/// The number of these two bytes.
fn u16_of(bytes: &[u8]) -> u16
    requires { length bytes.now ≡ 2 }
    ensures text { bytes.now ≡ number_text 2 result }
    ensures read { result ≡ number_in 2 bytes.now }
{
    BigEndian::read_u16(bytes)
}

/// The number of these four bytes.
fn u32_of(bytes: &[u8]) -> u32
    requires { length bytes.now ≡ 4 }
    ensures text { bytes.now ≡ number_text 4 result }
    ensures read { result ≡ number_in 4 bytes.now }
{
    BigEndian::read_u32(bytes)
}
