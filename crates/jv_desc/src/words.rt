ghost use Rattle.std.specs.Prelude.{◌≡◌, ◌-◌, ◌^◌, min};
ghost use Rattle.jv_desc.specs.Texts.{desc_words, words_of};

use jv_types::{Desc, MethodDesc, Prim};

/// How many words an argument of a type takes.
fn desc_words(desc: &Desc) -> u32
    ensures { result ≡ desc_words desc.now }
{
    match desc {
        Desc::Prim(Prim::Long | Prim::Double) => 2,
        _ => 1,
    }
}

/// How many words a method's arguments take: two for a `long` and a `double`, one for any other, and one
/// for the receiver where there is one. Where they don't fit it is 2^32 - 1.
pub fn arg_words(d: &MethodDesc, receiver: bool) -> u32
    ensures { result ≡ min (words_of d.now receiver) (2 ^ 32 - 1) }
{
    let mut words = 0u32;
    for param in d.params.as_slice() {
        words = words.saturating_add(desc_words(param));
    }
    words.saturating_add(u32::from(receiver))
}
