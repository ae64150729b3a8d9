use crate::files::{File, shown_name};
use anyhow::{Result, bail};
use jv_class::{BadClass, WriteRefusal, read_class, write_class};
use std::alloc::Global;

/// What is done with each class file.
#[derive(Clone, Copy, PartialEq, Eq)]
pub enum Work {
    /// It is read.
    Read,
    /// It is read, and written again.
    Again,
}

/// What came of a class file.
#[derive(Clone, Copy, PartialEq, Eq)]
enum Outcome {
    /// It was read, and written as it was where that was asked.
    Same,
    /// It is no class file.
    Refused,
    /// It was read, and not written as it was.
    Changed,
}

/// How many files and bytes were taken, and how many of the files were refused or changed.
#[derive(Clone, Copy)]
pub struct Tally {
    pub files: u64,
    pub bytes: u64,
    pub failed: u64,
}

impl Tally {
    /// Nothing was taken yet.
    pub fn new() -> Tally {
        Tally {
            files: 0,
            bytes: 0,
            failed: 0,
        }
    }
}

/// Reads a class file, and writes it again where asked.
fn take_one(alloc: Global, work: Work, bytes: &[u8]) -> Result<Outcome> {
    let class = match read_class(alloc, bytes) {
        Ok(class) => class,
        Err(BadClass::NotClass) => return Ok(Outcome::Refused),
        Err(BadClass::Memory) => bail!("out of memory"),
    };
    if work == Work::Read {
        return Ok(Outcome::Same);
    }
    match write_class(alloc, &class) {
        Ok(written) if written.as_slice() == bytes => Ok(Outcome::Same),
        Ok(_) => Ok(Outcome::Changed),
        Err(WriteRefusal::Memory) => bail!("out of memory"),
        Err(_) => Ok(Outcome::Changed),
    }
}

/// Prints the name of a file that was refused or changed.
fn tell(rt: &(impl Print + AllocGlobal), outcome: Outcome, file: &File) -> Result<()> {
    let name = shown_name(rt.alloc(), &file.name)?;
    match outcome {
        Outcome::Same => {}
        Outcome::Refused => println!(rt; "refused {name}")?,
        Outcome::Changed => println!(rt; "changed {name}")?,
    }
    Ok(())
}

/// Takes each file once. It prints the name of one that is refused or changed where it writes.
pub fn take_files(
    rt: &(impl Print + AllocGlobal),
    work: Work,
    files: &[File],
    tally: &mut Tally,
) -> Result<()> {
    for file in files {
        let outcome = take_one(rt.alloc(), work, &file.bytes)?;
        tally.files = tally.files.saturating_add(1);
        tally.bytes = tally.bytes.saturating_add(file.bytes.len() as u64);
        if outcome != Outcome::Same {
            tally.failed = tally.failed.saturating_add(1);
            if work == Work::Again {
                tell(rt, outcome, file)?;
            }
        }
    }
    Ok(())
}
