ghost use Rattle.std.specs.Prelude.{◌≡◌, ℕ, List, [], ◌∷◌, ◌++◌, OnOk, OnErr};
ghost use Rattle.jv_bytes.specs.Numbers.{number_text};

use byteorder::{BigEndian, ByteOrder};
use std::alloc::{AllocError, Global};
use std::marker::Model;

/// Bytes that are written one after the other. Clauses see what is written so far. A call that finds no
/// memory leaves it as it was.
#[derive(Debug, Drop)]
pub struct Writer {
    bytes: Vec<u8>,
}

impl Model for Writer {
    ghost use Rattle.std.specs.Prelude.{List, ℕ};

    ghost Value = { List ℕ };

    ghost view = { λ w. w.bytes.items };
}

impl Writer {
    /// Nothing is written yet, which takes no memory.
    pub fn new(alloc: Global) -> Writer
        ensures { result ≡ [] }
    {
        Writer {
            bytes: Vec::new(alloc),
        }
    }

    /// Writes a byte.
    pub fn put_u1(&mut self, byte: u8) -> Result<(), AllocError>
        ensures ok { OnOk result (self.new ≡ self.old ++ byte ∷ []) }
        ensures err { OnErr result (self.new ≡ self.old) }
    {
        self.bytes.push(byte)?;
        Ok(())
    }

    /// Writes a number in two bytes, the highest first.
    pub fn put_u2(&mut self, number: u16) -> Result<(), AllocError>
        ensures ok { OnOk result (self.new ≡ self.old ++ number_text 2 number) }
        ensures err { OnErr result (self.new ≡ self.old) }
    {
        let mut text = [0; 2];
        BigEndian::write_u16(&mut text, number);
        self.bytes(&text)
    }

    /// Writes a number in four bytes, the highest first.
    pub fn put_u4(&mut self, number: u32) -> Result<(), AllocError>
        ensures ok { OnOk result (self.new ≡ self.old ++ number_text 4 number) }
        ensures err { OnErr result (self.new ≡ self.old) }
    {
        let mut text = [0; 4];
        BigEndian::write_u32(&mut text, number);
        self.bytes(&text)
    }

    /// Writes these bytes.
    pub fn bytes(&mut self, bytes: &[u8]) -> Result<(), AllocError>
        ensures ok { OnOk result (self.new ≡ self.old ++ bytes.now) }
        ensures err { OnErr result (self.new ≡ self.old) }
    {
        self.bytes.extend_from_slice(bytes)
    }

    /// What was written, which takes no memory.
    pub fn done(self) -> Vec<u8>
        ensures { result.items ≡ self }
    {
        self.bytes
    }
}
