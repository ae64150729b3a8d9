//! The verification types of descriptors, and types in words (JVMS 4.10.1.2, 4.10.1.4).

use jv_desc::field_desc;
use jv_frames::{desc_vtype, in_words, ref_vtype};
use std::alloc::Global;
use std::test::Fail;
use tests_shapes::{type_of, types_of, vtype_of, words_of};
use tests_text::word;

/// Field descriptors, and the types of their values.
const DESCRIPTORS: &str = "\
B int
C int
S int
Z int
I int
J long
F float
D double
La/C; a/C
[Z [Z
[La/C; [La/C;
[[I [[I";

/// Whether the descriptor of a line has its type.
fn is_typed(alloc: Global, line: &str) -> Result<bool, Fail> {
    let desc = field_desc(alloc, word(line, 0).as_bytes())?;
    Ok(desc_vtype(alloc, &desc)? == vtype_of(alloc, word(line, 1))?)
}

#[test]
fn types_descriptors(rt: HostRuntime) -> Result<(), Fail> {
    for line in DESCRIPTORS.lines() {
        assert!(rt; is_typed(rt.alloc(), line)?, "at {line}");
    }
    Ok(())
}

/// Whether the type of a class or an array is the one that its text stands for.
fn is_reference_typed(alloc: Global, text: &str) -> Result<bool, Fail> {
    let of = type_of(alloc, text)?;
    Ok(ref_vtype(alloc, &of)? == vtype_of(alloc, text)?)
}

#[test]
fn types_references(rt: HostRuntime) -> Result<(), Fail> {
    for text in ["a/C", "[I", "[[I", "[La/C;"] {
        assert!(rt; is_reference_typed(rt.alloc(), text)?, "at {text}");
    }
    Ok(())
}

/// Whether types have their words: a long and a double have Top behind them.
fn has_words(alloc: Global, text: &str) -> Result<bool, Fail> {
    let words = in_words(alloc, types_of(alloc, text)?.as_slice())?;
    Ok(words.as_slice() == words_of(alloc, text)?.as_slice())
}

#[test]
fn puts_types_in_words(rt: HostRuntime) -> Result<(), Fail> {
    for text in ["", "int", "int long null", "double double a/C"] {
        assert!(rt; has_words(rt.alloc(), text)?, "at {text}");
    }
    Ok(())
}
