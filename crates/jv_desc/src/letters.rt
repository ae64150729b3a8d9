ghost use Rattle.std.specs.Prelude.{◌≡◌, IfSome, IfNone};
ghost use Rattle.jv_types.specs.declared.desc.PrimType.{PrimType};
ghost use Rattle.jv_desc.specs.Texts.{prim_letter};

use jv_types::Prim;

/// The letter of a primitive type (JVMS table 4.3-A).
pub fn letter_of(prim: Prim) -> u8
    ensures { result ≡ prim_letter prim }
{
    match prim {
        Prim::Boolean => b'Z',
        Prim::Char => b'C',
        Prim::Float => b'F',
        Prim::Double => b'D',
        Prim::Byte => b'B',
        Prim::Short => b'S',
        Prim::Int => b'I',
        Prim::Long => b'J',
    }
}

/// The primitive type of a letter in descriptors, or none where no type has it (JVMS table 4.3-A).
pub fn prim_of(letter: u8) -> Option<Prim>
    ensures found { IfSome result (λ prim. letter ≡ prim_letter prim) }
    ensures none { IfNone result ((prim : PrimType) → letter ≡ prim_letter prim → ⊥) }
{
    match letter {
        b'Z' => Some(Prim::Boolean),
        b'C' => Some(Prim::Char),
        b'F' => Some(Prim::Float),
        b'D' => Some(Prim::Double),
        b'B' => Some(Prim::Byte),
        b'S' => Some(Prim::Short),
        b'I' => Some(Prim::Int),
        b'J' => Some(Prim::Long),
        _ => None,
    }
}
