use anyhow::{Context, Result, bail};
use jv_host::{DirHost, Host, HostFault};
use jv_types::{Name, Seq};
use std::alloc::{AllocError, Global};

/// The most bytes of a file that are taken.
const MOST_BYTES: usize = 100_000;

/// The parts of a text between these characters, or none of an empty text.
pub fn parts<'a>(alloc: Global, text: &'a str, between: char) -> Result<Vec<&'a str>, AllocError> {
    let mut parts = Vec::new(alloc);
    if !text.is_empty() {
        for part in text.split(between) {
            parts.push(part)?;
        }
    }
    Ok(parts)
}

/// The field at a place.
pub fn field<'a>(fields: &[&'a str], place: usize) -> Result<&'a str> {
    Ok(*fields.get(place).context("a field is wanting")?)
}

/// A text as a name.
pub fn name_of(alloc: Global, text: &str) -> Result<Name, AllocError> {
    Name::from_slice(alloc, text.as_bytes())
}

/// A number that a field has.
pub fn number(text: &str) -> Result<usize> {
    text.parse::<usize>().context("the field isn't a number")
}

/// The numbers that a field lists.
pub fn numbers(alloc: Global, text: &str) -> Result<Seq<u64>> {
    let mut numbers = Seq::new(alloc);
    for part in parts(alloc, text, ',')? {
        let number = part.parse::<u64>();
        numbers.push(number.context("the field isn't a list of numbers")?)?;
    }
    Ok(numbers)
}

/// The bytes of a file of the folder in which this runs.
pub fn file_of(rt: &HostRuntime, path: &str) -> Result<Vec<u8>> {
    let alloc = rt.alloc();
    let mut host = DirHost::new(rt.clone()?);
    match host.read(
        alloc,
        &name_of(alloc, ".")?,
        &name_of(alloc, path)?,
        MOST_BYTES,
    ) {
        Ok(Some(bytes)) => Ok(bytes),
        Ok(None) => bail!("there is no file {path}"),
        Err(HostFault::Failed) => bail!("the file {path} could not be read"),
        Err(HostFault::Memory) => bail!("out of memory"),
    }
}
