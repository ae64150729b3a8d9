ghost use Rattle.std.specs.Prelude.{◌≡◌, ◌≤◌, None, IfOk, IfSome, vec_len};
ghost use Rattle.jv_host.specs.Counts.{Rises};
ghost use Rattle.jv_host.specs.HostAnswer.{OnHostFailed, UnlessHostFailed};
ghost use Rattle.jv_host.specs.DirHostState.{after_dir_read, after_dir_write};

use crate::host::{Host, HostFault};
use jv_types::Name;
use std::alloc::{AllocError, Global};
use std::io::{ErrorKind, Read};
use std::marker::Model;
use std::rt::Files;
use std::{fs, io};

/// The most entries that the folders under a root may have.
const MOST_ENTRIES: u32 = 1_000_000;

/// A host over the folders of a system. It tells nothing but its two counts, as which it is seen.
///
/// A root is a path. A name that isn't UTF-8, or has a byte 0, is that of no file. A list fails where a
/// folder can't be read, where a name found isn't UTF-8, and where there are more than 1,000,000 entries;
/// links to folders aren't followed. A write makes the folders that are missing.
#[derive(Drop)]
pub struct DirHost<R: Files + AllocGlobal + Clone + Drop> {
    rt: R,
    read_faults: u64,
    write_faults: u64,
}

impl<R: Files + AllocGlobal + Clone + Drop> Model for DirHost<R> {
    ghost use Rattle.jv_host.specs.DirHostState.{DirHostState};

    ghost Value = { DirHostState };

    ghost view = { λ h. record { read_faults = h.read_faults; write_faults = h.write_faults } };
}

impl<R: Files + AllocGlobal + Clone + Drop> DirHost<R> {
    /// A host over the folders that a runtime reaches.
    pub fn new(rt: R) -> DirHost<R>
        ensures { result ≡ record { read_faults = 0; write_faults = 0 } }
    {
        DirHost {
            rt,
            read_faults: 0,
            write_faults: 0,
        }
    }
}

/// The names found under a root, the folders under it that are still to be visited, each by its name and
/// a `/`, and how many entries were met.
#[derive(Drop)]
struct Walk {
    names: Vec<Name>,
    folders: Vec<String>,
    entries: u32,
}

/// The path of a root, to which a name can be added.
fn root_path(alloc: Global, root: &str) -> Result<String, AllocError> {
    let mut path = String::from_str(alloc, root)?;
    if !root.is_empty() && !root.as_bytes().ends_with(b"/".as_slice()) {
        path.push('/')?;
    }
    Ok(path)
}

/// The path of a file, or none where no file can have that name.
fn file_path(alloc: Global, root: &Name, name: &Name) -> Result<Option<String>, AllocError> {
    if root.as_slice().contains(&0) || name.as_slice().contains(&0) {
        return Ok(None);
    }
    let Ok(root) = str::from_utf8(root.as_slice()) else {
        return Ok(None);
    };
    let Ok(name) = str::from_utf8(name.as_slice()) else {
        return Ok(None);
    };
    let mut path = root_path(alloc, root)?;
    path.push_str(name)?;
    Ok(Some(path))
}

/// Takes in an entry of a folder.
fn visit_entry(
    alloc: Global,
    folder: &str,
    entry: &str,
    is_folder: bool,
    walk: &mut Walk,
) -> io::Result<()> {
    if walk.entries >= MOST_ENTRIES {
        return Err(io::Error::from(ErrorKind::Other));
    }
    walk.entries += 1;
    let mut name = String::from_str(alloc, folder)?;
    name.push_str(entry)?;
    if is_folder {
        name.push('/')?;
        walk.folders.push(name)?;
    } else if name.as_bytes().ends_with(b".class".as_slice()) {
        walk.names.push(Name::from_slice(alloc, name.as_bytes())?)?;
    }
    Ok(())
}

/// Takes in the entries of a folder.
fn visit_folder<R: Files + AllocGlobal + Clone + Drop>(
    rt: &R,
    alloc: Global,
    root: &str,
    folder: &str,
    walk: &mut Walk,
) -> io::Result<()> {
    let mut path = String::from_str(alloc, root)?;
    path.push_str(folder)?;
    for entry in fs::read_dir(rt, path.as_str())? {
        let entry = entry?;
        let is_folder = entry.file_type()?.is_dir();
        visit_entry(alloc, folder, entry.file_name(), is_folder, walk)?;
    }
    Ok(())
}

/// The names of the class files under a root.
fn list_root<R: Files + AllocGlobal + Clone + Drop>(
    rt: &R,
    alloc: Global,
    root: &Name,
    most: usize,
) -> io::Result<Vec<Name>>
    ensures { IfOk result (λ names. vec_len names ≤ most) }
{
    let Ok(root) = str::from_utf8(root.as_slice()) else {
        return Err(io::Error::from(ErrorKind::InvalidFilename));
    };
    let root = root_path(alloc, root)?;
    let mut walk = Walk {
        names: Vec::new(alloc),
        folders: Vec::new(alloc),
        entries: 0,
    };
    walk.folders.push(String::new(alloc))?;
    // No more folders than entries are met, beside the root.
    for _ in 0..=MOST_ENTRIES {
        let Some(folder) = walk.folders.pop() else {
            break;
        };
        visit_folder(rt, alloc, root.as_str(), folder.as_str(), &mut walk)?;
    }
    walk.names.truncate(most);
    Ok(walk.names)
}

/// The first bytes of a file.
fn read_path<R: Files + AllocGlobal + Clone + Drop>(
    rt: &R,
    alloc: Global,
    path: &str,
    most: usize,
) -> io::Result<Vec<u8>>
    ensures { IfOk result (λ bytes. vec_len bytes ≤ most) }
{
    let file = fs::open(rt, path)?;
    let mut bytes = Vec::new(alloc);
    file.take(most as u64).read_to_end(&mut bytes)?;
    bytes.truncate(most);
    Ok(bytes)
}

/// Whether an error says that there is no such file.
fn is_absent(kind: ErrorKind) -> bool {
    matches!(
        kind,
        ErrorKind::NotFound | ErrorKind::NotADirectory | ErrorKind::InvalidFilename
    )
}

/// Writes a file, and makes the folders that are missing.
fn write_path<R: Files + AllocGlobal + Clone + Drop>(
    rt: &R,
    path: &str,
    bytes: &[u8],
) -> io::Result<()> {
    if let Some((folder, _)) = path.rsplit_once('/') {
        if !folder.is_empty() {
            fs::create_dir_all(rt, folder)?;
        }
    }
    fs::write(rt, path, bytes)
}

impl<R: Files + AllocGlobal + Clone + Drop> Host for DirHost<R> {
    ghost files = { λ _. None };

    ghost written = { λ _. None };

    ghost calls = { λ _. None };

    ghost asked = { λ _. None };

    ghost failed = { λ _. None };

    ghost read_faults = { λ h. h.read_faults };

    ghost write_faults = { λ h. h.write_faults };

    fn list(&mut self, alloc: Global, root: &Name, most: usize) -> Result<Vec<Name>, HostFault>
        ensures at_most { IfOk result (λ names. vec_len names ≤ most) }

        ensures fault_counted { OnHostFailed result (Rises self.old.read_faults self.new.read_faults) }
        ensures faults_kept { UnlessHostFailed result (self.new.read_faults ≡ self.old.read_faults) }
        ensures never_falls { self.old.read_faults ≤ self.new.read_faults }
        ensures write_faults_kept { self.new.write_faults ≡ self.old.write_faults }

        // Each failure counts once, and nothing else does.
        ensures state { self.new ≡ after_dir_read result self.old }
    {
        match list_root(&self.rt, alloc, root, most) {
            Ok(names) => Ok(names),
            Err(error) if error.kind() == ErrorKind::OutOfMemory => Err(HostFault::Memory),
            Err(_) => {
                self.read_faults = self.read_faults.saturating_add(1);
                Err(HostFault::Failed)
            }
        }
    }

    fn read(
        &mut self,
        alloc: Global,
        root: &Name,
        name: &Name,
        most: usize,
    ) -> Result<Option<Vec<u8>>, HostFault>
        ensures at_most { IfOk result (λ found. IfSome found (λ bytes. vec_len bytes ≤ most)) }

        ensures fault_counted { OnHostFailed result (Rises self.old.read_faults self.new.read_faults) }
        ensures faults_kept { UnlessHostFailed result (self.new.read_faults ≡ self.old.read_faults) }
        ensures never_falls { self.old.read_faults ≤ self.new.read_faults }
        ensures write_faults_kept { self.new.write_faults ≡ self.old.write_faults }

        ensures state { self.new ≡ after_dir_read result self.old }
    {
        let Ok(path) = file_path(alloc, root, name) else {
            return Err(HostFault::Memory);
        };
        let Some(path) = path else {
            return Ok(None);
        };
        match read_path(&self.rt, alloc, path.as_str(), most) {
            Ok(bytes) => Ok(Some(bytes)),
            Err(error) if is_absent(error.kind()) => Ok(None),
            Err(error) if error.kind() == ErrorKind::OutOfMemory => Err(HostFault::Memory),
            Err(_) => {
                self.read_faults = self.read_faults.saturating_add(1);
                Err(HostFault::Failed)
            }
        }
    }

    fn write(
        &mut self,
        alloc: Global,
        root: &Name,
        name: &Name,
        bytes: &[u8],
    ) -> Result<(), HostFault>
        ensures fault_counted { OnHostFailed result (Rises self.old.write_faults self.new.write_faults) }
        ensures faults_kept { UnlessHostFailed result (self.new.write_faults ≡ self.old.write_faults) }
        ensures never_falls { self.old.write_faults ≤ self.new.write_faults }
        ensures read_faults_kept { self.new.read_faults ≡ self.old.read_faults }

        ensures state { self.new ≡ after_dir_write result self.old }
    {
        let Ok(path) = file_path(alloc, root, name) else {
            return Err(HostFault::Memory);
        };
        let written = match path {
            Some(path) => write_path(&self.rt, path.as_str(), bytes),
            None => Err(io::Error::from(ErrorKind::InvalidFilename)),
        };
        match written {
            Ok(()) => Ok(()),
            Err(error) if error.kind() == ErrorKind::OutOfMemory => Err(HostFault::Memory),
            Err(_) => {
                self.write_faults = self.write_faults.saturating_add(1);
                Err(HostFault::Failed)
            }
        }
    }
}
