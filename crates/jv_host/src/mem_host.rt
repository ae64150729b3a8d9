ghost use Rattle.std.specs.Prelude.{◌≡◌, ◌<◌, ◌≤◌, ◌↔◌, ◌++◌, [], ◌∷◌, List, ℕ, take, length, option_map, Contains, IfOk, IfSome, OnOk, OnErr, IsErr, IsErrOf, IsTrue, Some, None, vec_len, map, filter, find};
ghost use Rattle.std.specs.Option.{option_copied};
ghost use Rattle.jv_host.specs.declared.host.HostCall.{HostCall};
ghost use Rattle.jv_host.specs.Counts.{Rises, one_more};
ghost use Rattle.jv_host.specs.Files.{HasNoTwins, Lists, bytes_of, class_names, is_file, is_class_under};
ghost use Rattle.jv_host.specs.HostAnswer.{OnHostFailed, UnlessHostFailed, calls_after};
ghost use Rattle.jv_host.specs.MemHostState.{after_read, after_write, counted};

use crate::host::{Host, HostCall, HostFault, HostFile};
use jv_types::{Copied, Name, Seq};
use std::alloc::{AllocError, Global};
use std::marker::Model;

/// A host in memory, which tells all its meanings. The calls whose numbers are in `fail` answer
/// `Failed`, unless memory is wanting for the note of it. Calls are counted from 1, whatever they ask.
#[derive(Debug, Drop)]
pub struct MemHost {
    files: Seq<HostFile>,
    fail: Seq<u64>,
    written: Vec<HostFile>,
    answered: Vec<HostCall>,
    failed: Option<HostCall>,
    calls: u64,
    read_faults: u64,
    write_faults: u64,
}

impl Model for MemHost {
    ghost use Rattle.jv_host.specs.Files.{HasNoTwins};
    ghost use Rattle.jv_host.specs.MemHostState.{MemHostState};

    ghost Value = { MemHostState };

    ghost view = { λ h. record {
      files = h.files;
      fail = h.fail;
      written = h.written.items;
      answered = h.answered.items;
      failed = h.failed;
      calls = h.calls;
      read_faults = h.read_faults;
      write_faults = h.write_faults;
    } };

    ghost invariant = { λ h. HasNoTwins h.files };
}

/// Whether a file lies under a root and its name ends in `.class`.
fn is_class_file(file: &HostFile, root: &Name) -> bool
    ensures { result ≡ is_class_under root.now file.now }
{
    file.root == *root && file.name.as_slice().ends_with(b".class".as_slice())
}

/// The first names under a root that end in `.class`.
fn names_under(
    alloc: Global,
    files: &[HostFile],
    root: &Name,
    most: usize,
) -> Result<Vec<Name>, AllocError>
    ensures { IfOk result (λ names. names.items ≡ take most (class_names files.now root.now)) }
{
    let mut names = Vec::new(alloc);
    for file in files {
        if names.len() < most && is_class_file(file, root) {
            names.push(file.name.copy()?)?;
        }
    }
    Ok(names)
}

/// The file of that root and name.
fn file_of<'a>(files: &'a [HostFile], root: &Name, name: &Name) -> Option<&'a HostFile>
    ensures { option_copied result ≡ find (is_file root.now name.now) files.now }
{
    files
        .iter()
        .find(|file| file.root == *root && file.name == *name)
}

/// The first bytes.
fn front(bytes: &[u8], most: usize) -> &[u8]
    ensures { result.now ≡ take most bytes.now }
{
    if bytes.len() <= most {
        bytes
    } else {
        &bytes[..most]
    }
}

/// The first bytes of the file of that root and name.
#[tactic(auto, unfolding(crate::specs::Files::bytes_of))]
fn front_of(
    alloc: Global,
    files: &[HostFile],
    root: &Name,
    name: &Name,
    most: usize,
) -> Result<Option<Vec<u8>>, AllocError>
    ensures at_most { IfOk result (λ found. IfSome found (λ bytes. vec_len bytes ≤ most)) }
    ensures gives { IfOk result (λ found.
        option_map (λ bytes. bytes.items) found ≡ option_map (take most) (bytes_of files.now root.now name.now)) }
{
    match file_of(files, root, name) {
        None => Ok(None),
        Some(file) => {
            let bytes = Vec::from_slice(alloc, front(file.bytes.as_slice(), most))?;
            Ok(Some(bytes))
        }
    }
}

/// The call that lists a root.
fn list_call(root: &Name, most: usize) -> Result<HostCall, AllocError>
    ensures { IfOk result (λ call. call ≡ HostCall.ListRoot root.now most) }
{
    Ok(HostCall::ListRoot {
        root: root.copy()?,
        most,
    })
}

/// The call that reads a file.
fn read_call(root: &Name, name: &Name, most: usize) -> Result<HostCall, AllocError>
    ensures { IfOk result (λ call. call ≡ HostCall.ReadFile root.now name.now most) }
{
    Ok(HostCall::ReadFile {
        root: root.copy()?,
        name: name.copy()?,
        most,
    })
}

/// The call that writes a file.
fn write_call(root: &Name, name: &Name) -> Result<HostCall, AllocError>
    ensures { IfOk result (λ call. call ≡ HostCall.WriteFile root.now name.now) }
{
    Ok(HostCall::WriteFile {
        root: root.copy()?,
        name: name.copy()?,
    })
}

/// A file of that root, name and bytes.
fn file_from(alloc: Global, root: &Name, name: &Name, bytes: &[u8]) -> Result<HostFile, AllocError>
    ensures { IfOk result (λ file. file ≡ record { root = root.now; name = name.now; bytes = bytes.now }) }
{
    Ok(HostFile {
        root: root.copy()?,
        name: name.copy()?,
        bytes: Seq::from_vec(Vec::from_slice(alloc, bytes)?),
    })
}

impl MemHost {
    /// A host of these files, of which nothing was asked yet. This takes no memory.
    pub fn new(alloc: Global, files: Seq<HostFile>, fail: Seq<u64>) -> MemHost
        requires { HasNoTwins files }
        ensures { result ≡ record {
          files = files;
          fail = fail;
          written = [];
          answered = [];
          failed = None;
          calls = 0;
          read_faults = 0;
          write_faults = 0;
        } }
    {
        MemHost {
            files,
            fail,
            written: Vec::new(alloc),
            answered: Vec::new(alloc),
            failed: None,
            calls: 0,
            read_faults: 0,
            write_faults: 0,
        }
    }

    /// The files written so far, in order.
    pub fn written(&self) -> &[HostFile]
        ensures { result.now ≡ self.now.written }
    {
        self.written.as_slice()
    }

    /// Counts a call, and says whether it is to fail.
    fn begin(&mut self) -> bool
        ensures planned { IsTrue result ↔ Contains self.old.fail (one_more self.old.calls) }
        ensures counted_alone { self.new ≡ counted self.old }
        ensures distinct_files { HasNoTwins self.old.files }
    {
        self.calls = self.calls.saturating_add(1);
        self.fail.as_slice().contains(&self.calls)
    }

    /// Notes a call that failed.
    fn note_fault(&mut self, call: HostCall) -> Result<(), AllocError>
        ensures ok { OnOk result (self.new ≡ record self.old { answered = self.old.answered ++ call ∷ []; failed = Some call }) }
        ensures err { OnErr result (self.new ≡ self.old) }
    {
        let last = call.copy()?;
        self.answered.push(call)?;
        self.failed = Some(last);
        Ok(())
    }

    /// Notes a call that wrote a file.
    fn note_written(&mut self, call: HostCall, file: HostFile) -> Result<(), AllocError>
        ensures ok { OnOk result (self.new ≡ record self.old { answered = self.old.answered ++ call ∷ []; written = self.old.written ++ file ∷ [] }) }
        ensures err { OnErr result (self.new ≡ self.old) }
    {
        self.answered.push(call)?;
        match self.written.push(file) {
            Ok(()) => Ok(()),
            Err(_) => {
                let _ = self.answered.pop();
                Err(AllocError)
            }
        }
    }
}

impl Host for MemHost {
    ghost files = { λ h. Some h.files };

    ghost written = { λ h. Some h.written };

    ghost calls = { λ h. Some h.answered };

    ghost asked = { λ h. Some h.calls };

    ghost failed = { λ h. Some h.failed };

    ghost read_faults = { λ h. h.read_faults };

    ghost write_faults = { λ h. h.write_faults };

    #[tactic(auto, using(crate::proofs::Rules::listing))]
    fn list(&mut self, alloc: Global, root: &Name, most: usize) -> Result<Vec<Name>, HostFault>
        ensures distinct_files { IfSome (Some self.old.files) HasNoTwins }
        ensures at_most { IfOk result (λ names. vec_len names ≤ most) }
        ensures gives { IfOk result (λ names. IfSome (Some self.old.files) (λ told. Lists told root.now most names.items)) }

        ensures files_kept { Some self.new.files ≡ Some self.old.files }
        ensures written_kept { Some self.new.written ≡ Some self.old.written }
        ensures asked_once { Some self.new.calls ≡ Some (one_more self.old.calls) }
        ensures calls_grow { Some self.new.answered ≡ calls_after result (HostCall.ListRoot root.now most) (Some self.old.answered) }

        ensures fault_counted { OnHostFailed result (Rises self.old.read_faults self.new.read_faults) }
        ensures faults_kept { UnlessHostFailed result (self.new.read_faults ≡ self.old.read_faults) }
        ensures never_falls { self.old.read_faults ≤ self.new.read_faults }
        ensures write_faults_kept { self.new.write_faults ≡ self.old.write_faults }
        ensures failed_now { OnHostFailed result (Some self.new.failed ≡ Some (Some (HostCall.ListRoot root.now most))) }
        ensures failed_kept { UnlessHostFailed result (Some self.new.failed ≡ Some self.old.failed) }

        // The whole state, and the answer `Failed` where it is planned and nowhere else.
        ensures state { self.new ≡ after_read result (HostCall.ListRoot root.now most) (counted self.old) }
        ensures planned { Contains self.old.fail (one_more self.old.calls) → IsErr result }
        ensures unplanned { IsErrOf result HostFault.Failed → Contains self.old.fail (one_more self.old.calls) }
    {
        let planned = self.begin();
        let Ok(call) = list_call(root, most) else {
            return Err(HostFault::Memory);
        };
        if planned {
            return match self.note_fault(call) {
                Ok(()) => {
                    self.read_faults = self.read_faults.saturating_add(1);
                    Err(HostFault::Failed)
                }
                Err(_) => Err(HostFault::Memory),
            };
        }
        let Ok(names) = names_under(alloc, self.files.as_slice(), root, most) else {
            return Err(HostFault::Memory);
        };
        match self.answered.push(call) {
            Ok(()) => Ok(names),
            Err(_) => Err(HostFault::Memory),
        }
    }

    fn read(
        &mut self,
        alloc: Global,
        root: &Name,
        name: &Name,
        most: usize,
    ) -> Result<Option<Vec<u8>>, HostFault>
        ensures distinct_files { IfSome (Some self.old.files) HasNoTwins }
        ensures at_most { IfOk result (λ found. IfSome found (λ bytes. vec_len bytes ≤ most)) }
        ensures gives { IfOk result (λ found. IfSome (Some self.old.files) (λ told.
            option_map (λ bytes. bytes.items) found ≡ option_map (take most) (bytes_of told root.now name.now))) }

        ensures files_kept { Some self.new.files ≡ Some self.old.files }
        ensures written_kept { Some self.new.written ≡ Some self.old.written }
        ensures asked_once { Some self.new.calls ≡ Some (one_more self.old.calls) }
        ensures calls_grow { Some self.new.answered ≡ calls_after result (HostCall.ReadFile root.now name.now most) (Some self.old.answered) }

        ensures fault_counted { OnHostFailed result (Rises self.old.read_faults self.new.read_faults) }
        ensures faults_kept { UnlessHostFailed result (self.new.read_faults ≡ self.old.read_faults) }
        ensures never_falls { self.old.read_faults ≤ self.new.read_faults }
        ensures write_faults_kept { self.new.write_faults ≡ self.old.write_faults }
        ensures failed_now { OnHostFailed result (Some self.new.failed ≡ Some (Some (HostCall.ReadFile root.now name.now most))) }
        ensures failed_kept { UnlessHostFailed result (Some self.new.failed ≡ Some self.old.failed) }

        // The whole state, and the answer `Failed` where it is planned and nowhere else.
        ensures state { self.new ≡ after_read result (HostCall.ReadFile root.now name.now most) (counted self.old) }
        ensures planned { Contains self.old.fail (one_more self.old.calls) → IsErr result }
        ensures unplanned { IsErrOf result HostFault.Failed → Contains self.old.fail (one_more self.old.calls) }
    {
        let planned = self.begin();
        let Ok(call) = read_call(root, name, most) else {
            return Err(HostFault::Memory);
        };
        if planned {
            return match self.note_fault(call) {
                Ok(()) => {
                    self.read_faults = self.read_faults.saturating_add(1);
                    Err(HostFault::Failed)
                }
                Err(_) => Err(HostFault::Memory),
            };
        }
        let Ok(found) = front_of(alloc, self.files.as_slice(), root, name, most) else {
            return Err(HostFault::Memory);
        };
        match self.answered.push(call) {
            Ok(()) => Ok(found),
            Err(_) => Err(HostFault::Memory),
        }
    }

    fn write(
        &mut self,
        alloc: Global,
        root: &Name,
        name: &Name,
        bytes: &[u8],
    ) -> Result<(), HostFault>
        ensures appends { OnOk result (Some self.new.written ≡ Some
            (self.old.written ++ record { root = root.now; name = name.now; bytes = bytes.now } ∷ [])) }
        ensures written_kept { OnErr result (Some self.new.written ≡ Some self.old.written) }

        ensures files_kept { Some self.new.files ≡ Some self.old.files }
        ensures asked_once { Some self.new.calls ≡ Some (one_more self.old.calls) }
        ensures calls_grow { Some self.new.answered ≡ calls_after result (HostCall.WriteFile root.now name.now) (Some self.old.answered) }

        ensures fault_counted { OnHostFailed result (Rises self.old.write_faults self.new.write_faults) }
        ensures faults_kept { UnlessHostFailed result (self.new.write_faults ≡ self.old.write_faults) }
        ensures never_falls { self.old.write_faults ≤ self.new.write_faults }
        ensures read_faults_kept { self.new.read_faults ≡ self.old.read_faults }
        ensures failed_now { OnHostFailed result (Some self.new.failed ≡ Some (Some (HostCall.WriteFile root.now name.now))) }
        ensures failed_kept { UnlessHostFailed result (Some self.new.failed ≡ Some self.old.failed) }

        // The whole state, and the answer `Failed` where it is planned and nowhere else.
        ensures state { self.new ≡ after_write result (HostCall.WriteFile root.now name.now)
            (record { root = root.now; name = name.now; bytes = bytes.now }) (counted self.old) }
        ensures planned { Contains self.old.fail (one_more self.old.calls) → IsErr result }
        ensures unplanned { IsErrOf result HostFault.Failed → Contains self.old.fail (one_more self.old.calls) }
    {
        let planned = self.begin();
        let Ok(call) = write_call(root, name) else {
            return Err(HostFault::Memory);
        };
        if planned {
            return match self.note_fault(call) {
                Ok(()) => {
                    self.write_faults = self.write_faults.saturating_add(1);
                    Err(HostFault::Failed)
                }
                Err(_) => Err(HostFault::Memory),
            };
        }
        let Ok(file) = file_from(alloc, root, name, bytes) else {
            return Err(HostFault::Memory);
        };
        match self.note_written(call, file) {
            Ok(()) => Ok(()),
            Err(_) => Err(HostFault::Memory),
        }
    }
}
