use crate::files::File;
use anyhow::{Result, bail};
use jv_attr::{Attr, AttrBody, CodeAttr};
use jv_class::{ClassFile, read_class};
use jv_insn::{BadCode, decode};
use jv_pool::Pool;
use std::alloc::Global;

/// The most bytes that a code may have (JVMS 4.7.3).
const MOST_BYTES: usize = 65535;

/// How many codes, bytes and instructions were decoded.
#[derive(Clone, Copy)]
pub struct Decoded {
    pub codes: u64,
    pub bytes: u64,
    pub insns: u64,
}

impl Decoded {
    /// Nothing was decoded yet.
    pub fn new() -> Decoded {
        Decoded {
            codes: 0,
            bytes: 0,
            insns: 0,
        }
    }

    /// One code more, of so many bytes and instructions.
    fn count(&mut self, bytes: usize, insns: usize) {
        self.codes = self.codes.saturating_add(1);
        self.bytes = self.bytes.saturating_add(bytes as u64);
        self.insns = self.insns.saturating_add(insns as u64);
    }
}

/// The classes of files, each of which is a class file.
pub fn classes_of(alloc: Global, files: &[File]) -> Result<Vec<ClassFile>> {
    let mut classes = Vec::new(alloc);
    for file in files {
        match read_class(alloc, &file.bytes) {
            Ok(class) => classes.push(class)?,
            Err(_) => bail!("a file that is no class file"),
        }
    }
    Ok(classes)
}

/// Decodes a code over a pool.
fn decode_code(alloc: Global, pool: &Pool, code: &CodeAttr, decoded: &mut Decoded) -> Result<()> {
    let bytes = code.code.as_slice();
    if bytes.len() > MOST_BYTES {
        bail!("a code of {} bytes", bytes.len());
    }
    let handlers = code.handlers.as_slice();
    match decode(
        alloc,
        bytes,
        pool,
        handlers,
        code.max_stack,
        code.max_locals,
    ) {
        Ok(body) => {
            decoded.count(bytes.len(), body.insns.len());
            Ok(())
        }
        Err(BadCode::At { pc }) => bail!("a code that isn't well formed at {pc}"),
        Err(BadCode::Memory) => bail!("out of memory"),
    }
}

/// Decodes the codes among the attributes of a method.
fn decode_attrs(alloc: Global, pool: &Pool, attrs: &[Attr], decoded: &mut Decoded) -> Result<()> {
    for attr in attrs {
        if let AttrBody::Code(code) = &attr.body {
            decode_code(alloc, pool, code, decoded)?;
        }
    }
    Ok(())
}

/// Decodes the codes of all methods of classes once.
pub fn decode_all(alloc: Global, classes: &[ClassFile], decoded: &mut Decoded) -> Result<()> {
    for class in classes {
        for method in class.methods.as_slice() {
            decode_attrs(alloc, &class.pool, method.attrs.as_slice(), decoded)?;
        }
    }
    Ok(())
}
