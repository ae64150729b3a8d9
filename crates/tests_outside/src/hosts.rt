use crate::reading::{field, file_of, name_of, number, numbers, parts};
use anyhow::{Result, ensure};
use jv_host::{DirHost, Host, HostFault, HostFile, MemHost, has_no_twins};
use jv_types::Seq;

/// The content that a word tells: a text behind `=`, or that of a file of the folder.
fn content(rt: &HostRuntime, word: &str) -> Result<Vec<u8>> {
    match word.strip_prefix('=') {
        Some(text) => Ok(Vec::from_slice(rt.alloc(), text.as_bytes())?),
        None => file_of(rt, word),
    }
}

/// The files that a field lists.
fn files(rt: &HostRuntime, text: &str) -> Result<Vec<HostFile>> {
    let alloc = rt.alloc();
    let mut files = Vec::new(alloc);
    for part in parts(alloc, text, ',')? {
        let words = parts(alloc, part, ' ')?;
        files.push(HostFile {
            root: name_of(alloc, field(&words, 0)?)?,
            name: name_of(alloc, field(&words, 1)?)?,
            bytes: Seq::from_vec(content(rt, field(&words, 2)?)?),
        })?;
    }
    Ok(files)
}

/// A host in memory with the files that a field lists, whose calls of the numbers that another lists fail.
pub fn memory(rt: &HostRuntime, told: &str, faults: &str) -> Result<MemHost> {
    let files = files(rt, told)?;
    ensure!(has_no_twins(files.as_slice()), "two files of one name");
    let faults = numbers(rt.alloc(), faults)?;
    Ok(MemHost::new(rt.alloc(), Seq::from_vec(files), faults))
}

/// Tells of a fault.
fn tell_fault(rt: &HostRuntime, fault: HostFault) -> Result<()> {
    match fault {
        HostFault::Failed => println!(rt; "failed")?,
        HostFault::Memory => println!(rt; "memory")?,
    }
    Ok(())
}

/// Lists a root, and tells the names.
fn list<H: Host>(rt: &HostRuntime, host: &mut H, words: &[&str]) -> Result<()> {
    let alloc = rt.alloc();
    let most = number(field(words, 2)?)?;
    match host.list(alloc, &name_of(alloc, field(words, 1)?)?, most) {
        Ok(names) => {
            println!(rt; "{} names", names.len())?;
            for name in &names {
                println!(rt; "{}", str::from_utf8(name.as_slice())?)?;
            }
            Ok(())
        }
        Err(fault) => tell_fault(rt, fault),
    }
}

/// Reads a file, and tells its bytes.
fn read<H: Host>(rt: &HostRuntime, host: &mut H, words: &[&str]) -> Result<()> {
    let alloc = rt.alloc();
    let root = name_of(alloc, field(words, 1)?)?;
    let name = name_of(alloc, field(words, 2)?)?;
    match host.read(alloc, &root, &name, number(field(words, 3)?)?) {
        Ok(Some(bytes)) => println!(rt; "[{}]", str::from_utf8(&bytes)?)?,
        Ok(None) => println!(rt; "no file")?,
        Err(fault) => tell_fault(rt, fault)?,
    }
    Ok(())
}

/// Writes a file.
fn write<H: Host>(rt: &HostRuntime, host: &mut H, words: &[&str]) -> Result<()> {
    let alloc = rt.alloc();
    let root = name_of(alloc, field(words, 1)?)?;
    let name = name_of(alloc, field(words, 2)?)?;
    match host.write(alloc, &root, &name, field(words, 3)?.as_bytes()) {
        Ok(()) => println!(rt; "written")?,
        Err(fault) => tell_fault(rt, fault)?,
    }
    Ok(())
}

/// Makes the calls that a field lists, and tells what they answer.
fn calls<H: Host>(rt: &HostRuntime, host: &mut H, text: &str) -> Result<()> {
    for call in parts(rt.alloc(), text, ',')? {
        let words = parts(rt.alloc(), call, ' ')?;
        match field(&words, 0)? {
            "list" => list(rt, host, &words)?,
            "read" => read(rt, host, &words)?,
            _ => write(rt, host, &words)?,
        }
    }
    Ok(())
}

/// Calls of a host in memory, and what was written.
pub fn memory_row(rt: &HostRuntime, fields: &[&str]) -> Result<()> {
    let mut host = memory(rt, field(fields, 2)?, field(fields, 3)?)?;
    calls(rt, &mut host, field(fields, 4)?)?;
    for file in host.written() {
        println!(rt; "has written [{}]", str::from_utf8(file.bytes.as_slice())?)?;
    }
    Ok(())
}

/// Calls of a host over folders.
pub fn folder_row(rt: &HostRuntime, fields: &[&str]) -> Result<()> {
    let mut host = DirHost::new(rt.clone()?);
    calls(rt, &mut host, field(fields, 2)?)
}
