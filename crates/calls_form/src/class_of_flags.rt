ghost use Rattle.std.specs.Prelude.{◌≡◌};
ghost use Rattle.calls_form.specs.ClassesHeads.{is_visible, is_allowed};

use crate::class_of_types::has_static;
use bitflags::Flags;
use jv_types::Access;

/// Whether a text is printed as it is: each byte is visible ASCII and no percent sign.
pub fn is_visible(text: &[u8]) -> bool
    ensures { result ≡ is_visible text.now }
{
    text.iter()
        .all(|b| *b >= 0x21 && (*b <= 0x7E && *b != b'%'))
}

/// Whether a method has code by its flags, and is neither `<clinit>` nor a static `<init>` (JVMS 2.9,
/// 4.6).
pub fn is_allowed(access: Access, name: &[u8]) -> bool
    ensures { result ≡ is_allowed access name.now }
{
    (!access.contains(Access::NATIVE) && !access.contains(Access::ABSTRACT))
        && (name != b"<clinit>".as_slice() && !(has_static(access) && name == b"<init>".as_slice()))
}
