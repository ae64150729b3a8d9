ghost use Rattle.std.specs.Prelude.{◌≡◌, ◌↔◌, ℕ, List, IsTrue};
ghost use Rattle.std.specs.List.{list_all};
ghost use Rattle.jv_types.specs.NameForms.{may_stand, is_part, is_plain, is_class_name, is_method_name, IsClassName};

/// Whether a byte may stand in a part of a name.
fn may_stand(byte: u8) -> bool
    ensures { result ≡ may_stand byte }
{
    byte != b'.' && byte != b';' && byte != b'[' && byte != b'/'
}

/// Whether each byte may stand in a part of a name.
fn all_may_stand(bytes: &[u8]) -> bool
    ensures { result ≡ list_all may_stand bytes.now }
{
    bytes.iter().all(|byte| may_stand(*byte))
}

/// Whether the bytes are a name of a field, or one part of a class name (JVMS 4.2.2).
pub fn is_part(bytes: &[u8]) -> bool
    ensures { result ≡ is_part bytes.now }
{
    match bytes.split_first() {
        None => false,
        Some((first, rest)) => may_stand(*first) && all_may_stand(rest),
    }
}

/// Whether the bytes are the name of a class or interface in its internal form (JVMS 4.2.1): parts that
/// are joined by `/`.
pub fn is_class_name(bytes: &[u8]) -> bool
    ensures { result ≡ is_class_name bytes.now }
{
    let mut begun = false;
    for byte in bytes {
        if *byte == b'/' {
            if !begun {
                return false;
            }
            begun = false;
        } else {
            if !may_stand(*byte) {
                return false;
            }
            begun = true;
        }
    }
    begun
}

/// Whether each byte is neither `<` nor `>`.
fn all_plain(bytes: &[u8]) -> bool
    ensures { result ≡ list_all is_plain bytes.now }
{
    bytes.iter().all(|byte| *byte != b'<' && *byte != b'>')
}

/// Whether the bytes are the name of a method (JVMS 4.2.2): a part without `<` and `>`, or `<init>` or
/// `<clinit>`.
pub fn is_method_name(bytes: &[u8]) -> bool
    ensures { result ≡ is_method_name bytes.now }
{
    is_part(bytes)
        && (all_plain(bytes) || bytes == b"<init>".as_slice() || bytes == b"<clinit>".as_slice())
}

/// A class name is one part or more, joined by `/`. This does nothing, and its contract is the law.
pub fn class_names_are_parts()
    ensures { (bytes : List ℕ) → IsTrue (is_class_name bytes) ↔ IsClassName bytes }
{}
