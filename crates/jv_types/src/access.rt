ghost use Rattle.std.specs.Prelude.{⊤, ◌≡◌, [], ◌∷◌, codes};

use bitflags::{Flag, Flags, bitflag_items};

/// A set of access flags (JVMS tables 4.1-A, 4.5-A and 4.6-A), as the number that a class file has.
/// Bits that have no name here are kept.
#[derive(Clone, Copy, Debug, PartialEq, Eq, PartialOrd, Ord)]
pub struct Access(pub u16);

bitflag_items! {
    impl Access: u16 {
        const PUBLIC = 1;
        const PRIVATE = 2;
        const PROTECTED = 4;
        const STATIC = 8;
        const FINAL = 0x10;
        const SUPER = 0x20;
        const NATIVE = 0x100;
        const INTERFACE = 0x200;
        const ABSTRACT = 0x400;
    }
}

impl Flags for Access {
    type Bits = u16;

    ghost exact = { ⊤ };

    ghost table = { (codes "PUBLIC", 1) ∷ (codes "PRIVATE", 2) ∷ (codes "PROTECTED", 4) ∷ (codes "STATIC", 8)
        ∷ (codes "FINAL", 16) ∷ (codes "SUPER", 32) ∷ (codes "NATIVE", 256) ∷ (codes "INTERFACE", 512)
        ∷ (codes "ABSTRACT", 1024) ∷ [] };

    ghost set_of = { λ a. a.0 };

    fn flags<'a>() -> &'a [Flag<Access>] {
        Access::FLAGS
    }

    fn bits(&self) -> u16 {
        self.0
    }

    fn from_bits_retain(bits: u16) -> Access {
        Access(bits)
    }
}
