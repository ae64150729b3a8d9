use crate::codes::{Decoded, classes_of, decode_all};
use crate::files::{File, files_at};
use crate::rounds::{Tally, Work, take_files};
use anyhow::{Result, bail};
use jv_host::DirHost;

/// Takes the files so many times, and says how many files and bytes these were.
fn measure_files(
    rt: &(impl Print + AllocGlobal),
    work: Work,
    rounds: u32,
    files: &[File],
) -> Result<()> {
    let mut tally = Tally::new();
    for _ in 0..rounds {
        take_files(rt, work, files, &mut tally)?;
    }
    println!(rt; "files {} bytes {}", tally.files, tally.bytes)?;
    if tally.failed > 0 {
        bail!("{} were refused or changed", tally.failed);
    }
    Ok(())
}

/// Decodes the codes of the files so many times, and says how many codes, bytes and instructions these were.
fn measure_codes(rt: &(impl Print + AllocGlobal), rounds: u32, files: &[File]) -> Result<()> {
    let classes = classes_of(rt.alloc(), files)?;
    let mut decoded = Decoded::new();
    for _ in 0..rounds {
        decode_all(rt.alloc(), &classes, &mut decoded)?;
    }
    println!(rt;
        "codes {} bytes {} insns {}",
        decoded.codes, decoded.bytes, decoded.insns
    )?;
    Ok(())
}

/// Reads the class files at the paths so many times, reads and writes them, or decodes their codes.
pub fn measure_classes(rt: &HostRuntime, work: &str, rounds: u32, paths: &[&str]) -> Result<()> {
    let mut host = DirHost::new(rt.clone()?);
    let mut files = Vec::new(rt.alloc());
    for path in paths {
        files_at(rt.alloc(), &mut host, path, &mut files)?;
    }
    match work {
        "read" => measure_files(rt, Work::Read, rounds, &files),
        "again" => measure_files(rt, Work::Again, rounds, &files),
        "decode" => measure_codes(rt, rounds, &files),
        _ => bail!("no such work on class files"),
    }
}
