use anyhow::{Result, bail};
use jv_bytes::shown;
use jv_host::{Host, HostFault};
use jv_types::Name;
use std::alloc::Global;

/// The most class files of a folder that are taken.
const MOST_FILES: usize = 1_000_000;

/// The most bytes of a file that are taken.
const MOST_BYTES: usize = 1_000_000_000;

/// A file: its name, as it was asked for, and its bytes.
#[derive(Drop)]
pub struct File {
    pub name: Name,
    pub bytes: Vec<u8>,
}

/// A name as it is printed.
pub fn shown_name(alloc: Global, name: &Name) -> Result<String> {
    Ok(String::from_utf8(shown(alloc, name.as_slice())?)?)
}

/// The names of the class files below a folder.
pub fn names_below<H: Host>(alloc: Global, host: &mut H, folder: &Name) -> Result<Vec<Name>> {
    match host.list(alloc, folder, MOST_FILES) {
        Ok(names) => Ok(names),
        Err(HostFault::Failed) => bail!("a folder could not be listed"),
        Err(HostFault::Memory) => bail!("out of memory"),
    }
}

/// The bytes of a file.
pub fn bytes_of<H: Host>(alloc: Global, host: &mut H, root: &Name, name: &Name) -> Result<Vec<u8>> {
    match host.read(alloc, root, name, MOST_BYTES) {
        Ok(Some(bytes)) => Ok(bytes),
        Ok(None) => bail!("there is no such file"),
        Err(HostFault::Failed) => bail!("a file could not be read"),
        Err(HostFault::Memory) => bail!("out of memory"),
    }
}

/// Adds the files at a path: the one that it names, or the class files below a folder.
pub fn files_at<H: Host>(
    alloc: Global,
    host: &mut H,
    path: &str,
    files: &mut Vec<File>,
) -> Result<()> {
    let path = Name::from_slice(alloc, path.as_bytes())?;
    if path.as_slice().ends_with(b".class".as_slice()) {
        let bytes = bytes_of(alloc, host, &Name::from_slice(alloc, b"")?, &path)?;
        files.push(File { name: path, bytes })?;
        return Ok(());
    }
    for name in names_below(alloc, host, &path)? {
        let bytes = bytes_of(alloc, host, &path, &name)?;
        files.push(File { name, bytes })?;
    }
    Ok(())
}
