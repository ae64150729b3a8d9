ghost use Rattle.std.specs.Prelude.{◌≡◌, count_by};
ghost use Rattle.std.specs.List.{list_any};
ghost use Rattle.jv_class.specs.ClassTexts.{has_code};

use jv_attr::{Attr, AttrBody};

/// Whether an attribute is a method's code.
fn has_code(attr: &Attr) -> bool
    ensures { result ≡ has_code attr.now }
{
    match &attr.body {
        AttrBody::Code(_) => true,
        AttrBody::Maps(_) | AttrBody::Raw(_) => false,
    }
}

/// How many attributes are a method's code.
pub fn code_count(attrs: &[Attr]) -> usize
    ensures { result ≡ count_by has_code attrs.now }
{
    let mut count = 0;
    for attr in attrs {
        if has_code(attr) {
            count += 1;
        }
    }
    count
}

/// Whether one of the attributes is a method's code.
pub fn any_code(attrs: &[Attr]) -> bool
    ensures { result ≡ list_any has_code attrs.now }
{
    attrs.iter().any(has_code)
}
