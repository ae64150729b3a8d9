//! The code of a method of a class file (JVMS 4.7.3).

use jv_class::{method_code, read_class};
use std::alloc::Global;
use std::test::Fail;
use tests_text::hex;

/// A class `L`, whose method `main` has a code of one instruction, a return.
const WITH_CODE: &str = "\
cafebabe0000003400080100014c0700010100106a6176612f6c616e672f4f626a6563740700030100046d61696e\
010016285b4c6a6176612f6c616e672f537472696e673b2956010004436f64650021000200040000000000010009\
00050006000100070000000d0000000100000001b1000000000000";

/// An interface `I` with the abstract method `m`.
const WITHOUT: &str = "\
cafebabe0000003400070100014907000101\
00106a6176612f6c616e672f4f626a6563740700030100016d01000328295606010002000400000000000104010005\
000600000000";

/// How many bytes the code of the first method of a class has, if it has a code.
fn code_length(alloc: Global, text: &str) -> Result<Option<usize>, Fail> {
    let class = read_class(alloc, &hex(alloc, text)?)?;
    let method = class.methods.as_slice().first().ok_or("a method")?;
    match method_code(method) {
        None => Ok(None),
        Some(code) => Ok(Some(code.code.as_slice().len())),
    }
}

#[test]
fn finds_a_methods_code(rt: HostRuntime) -> Result<(), Fail> {
    assert_eq!(rt; code_length(rt.alloc(), WITH_CODE)?, Some(1));
    assert_eq!(rt; code_length(rt.alloc(), WITHOUT)?, None);
    Ok(())
}
