ghost use Rattle.std.specs.Prelude.{◌≡◌, ◌≤◌, [], ◌∷◌, ◌++◌, List, ℕ, Option, Some, vec_len, take, option_map, IfOk, IfSome, OnOk, OnErr};
ghost use Rattle.jv_host.specs.declared.host.HostFile.{HostFile};
ghost use Rattle.jv_host.specs.declared.host.HostCall.{HostCall};
ghost use Rattle.jv_host.specs.Counts.{Rises, one_more};
ghost use Rattle.jv_host.specs.Files.{HasNoTwins, Lists, bytes_of};
ghost use Rattle.jv_host.specs.HostAnswer.{OnHostFailed, UnlessHostFailed, calls_after};

use jv_types::{Copied, Name, Seq};
use std::alloc::{AllocError, AllocFailed, Global};

/// Why a call of a host gives nothing.
#[derive(Clone, Copy, Debug, PartialEq, Eq)]
pub enum HostFault {
    /// The outside refused.
    Failed,
    /// Memory is wanting.
    Memory,
}

impl From<AllocError> for HostFault {
    ghost use Rattle.std.specs.Prelude.{◌≡◌};
    ghost use Rattle.jv_host.specs.declared.host.HostFault.TheVariants.{Memory};

    ghost from_gives = { λ _ fault. fault ≡ Memory };

    fn from(_error: AllocError) -> HostFault {
        HostFault::Memory
    }
}

impl<T: Drop> From<AllocFailed<T>> for HostFault {
    ghost use Rattle.std.specs.Prelude.{◌≡◌};
    ghost use Rattle.jv_host.specs.declared.host.HostFault.TheVariants.{Memory};

    ghost from_gives = { λ _ fault. fault ≡ Memory };

    fn from(_error: AllocFailed<T>) -> HostFault {
        HostFault::Memory
    }
}

/// A file: the folder that it is reached from, its name under that folder with `/` between the parts,
/// and its bytes.
#[derive(Debug, PartialEq, Eq, PartialOrd, Ord, Drop)]
pub struct HostFile {
    pub root: Name,
    pub name: Name,
    pub bytes: Seq<u8>,
}

/// A call of a host, by what it was asked.
#[derive(Debug, PartialEq, Eq, PartialOrd, Ord, Drop)]
pub enum HostCall {
    /// The names under a root, at most so many.
    ListRoot { root: Name, most: usize },
    /// The first bytes of a file, at most so many.
    ReadFile { root: Name, name: Name, most: usize },
    /// That a file be written.
    WriteFile { root: Name, name: Name },
}

/// Where files are listed, read and written. What a host can tell of itself is optional: a folder of
/// the system tells nothing but its two counts.
pub trait Host {
    /// The files that can be read, where they are told. No two share root and name, and no call
    /// changes them.
    ghost files: { Self → Option (List HostFile) };

    /// The files written so far, in order, where they are told. A root and name may come again.
    ghost written: { Self → Option (List HostFile) };

    /// The calls that answered, in order, where they are told. One that answered that memory is
    /// wanting isn't among them.
    ghost calls: { Self → Option (List HostCall) };

    /// How many calls there were, whatever they answered, where it is told.
    ghost asked: { Self → Option ℕ };

    /// The last call that answered `Failed`, or none, where it is told.
    ghost failed: { Self → Option (Option HostCall) };

    /// How often a list or a read has failed.
    ghost read_faults: { Self → ℕ };

    /// How often a write has failed.
    ghost write_faults: { Self → ℕ };

    /// The names under a root that end in `.class`, each once: all where there are at most `most`, and
    /// `most` of them otherwise.
    fn list(&mut self, alloc: Global, root: &Name, most: usize) -> Result<Vec<Name>, HostFault>
        ensures distinct_files { IfSome (files self.old) HasNoTwins }
        ensures at_most { IfOk result (λ names. vec_len names ≤ most) }
        ensures gives { IfOk result (λ names. IfSome (files self.old) (λ told. Lists told root.now most names.items)) }

        ensures files_kept { files self.new ≡ files self.old }
        ensures written_kept { written self.new ≡ written self.old }
        ensures asked_once { asked self.new ≡ option_map one_more (asked self.old) }
        ensures calls_grow { calls self.new ≡ calls_after result (HostCall.ListRoot root.now most) (calls self.old) }

        // Only a fault is counted, and it is then the last one.
        ensures fault_counted { OnHostFailed result (Rises (read_faults self.old) (read_faults self.new)) }
        ensures faults_kept { UnlessHostFailed result (read_faults self.new ≡ read_faults self.old) }
        ensures never_falls { read_faults self.old ≤ read_faults self.new }
        ensures write_faults_kept { write_faults self.new ≡ write_faults self.old }
        ensures failed_now { OnHostFailed result (failed self.new ≡ option_map (λ _. Some (HostCall.ListRoot root.now most)) (failed self.old)) }
        ensures failed_kept { UnlessHostFailed result (failed self.new ≡ failed self.old) };

    /// The first `most` bytes of a file, or none where there is no such file.
    fn read(
        &mut self,
        alloc: Global,
        root: &Name,
        name: &Name,
        most: usize,
    ) -> Result<Option<Vec<u8>>, HostFault>
        ensures distinct_files { IfSome (files self.old) HasNoTwins }
        ensures at_most { IfOk result (λ found. IfSome found (λ bytes. vec_len bytes ≤ most)) }
        ensures gives { IfOk result (λ found. IfSome (files self.old) (λ told.
            option_map (λ bytes. bytes.items) found ≡ option_map (take most) (bytes_of told root.now name.now))) }

        ensures files_kept { files self.new ≡ files self.old }
        ensures written_kept { written self.new ≡ written self.old }
        ensures asked_once { asked self.new ≡ option_map one_more (asked self.old) }
        ensures calls_grow { calls self.new ≡ calls_after result (HostCall.ReadFile root.now name.now most) (calls self.old) }

        ensures fault_counted { OnHostFailed result (Rises (read_faults self.old) (read_faults self.new)) }
        ensures faults_kept { UnlessHostFailed result (read_faults self.new ≡ read_faults self.old) }
        ensures never_falls { read_faults self.old ≤ read_faults self.new }
        ensures write_faults_kept { write_faults self.new ≡ write_faults self.old }
        ensures failed_now { OnHostFailed result (failed self.new ≡ option_map (λ _. Some (HostCall.ReadFile root.now name.now most)) (failed self.old)) }
        ensures failed_kept { UnlessHostFailed result (failed self.new ≡ failed self.old) };

    /// Writes a file. On an error nothing is added to the files written.
    fn write(
        &mut self,
        alloc: Global,
        root: &Name,
        name: &Name,
        bytes: &[u8],
    ) -> Result<(), HostFault>
        ensures appends { OnOk result (written self.new ≡ option_map
            (λ before. before ++ record { root = root.now; name = name.now; bytes = bytes.now } ∷ []) (written self.old)) }
        ensures written_kept { OnErr result (written self.new ≡ written self.old) }

        ensures files_kept { files self.new ≡ files self.old }
        ensures asked_once { asked self.new ≡ option_map one_more (asked self.old) }
        ensures calls_grow { calls self.new ≡ calls_after result (HostCall.WriteFile root.now name.now) (calls self.old) }

        ensures fault_counted { OnHostFailed result (Rises (write_faults self.old) (write_faults self.new)) }
        ensures faults_kept { UnlessHostFailed result (write_faults self.new ≡ write_faults self.old) }
        ensures never_falls { write_faults self.old ≤ write_faults self.new }
        ensures read_faults_kept { read_faults self.new ≡ read_faults self.old }
        ensures failed_now { OnHostFailed result (failed self.new ≡ option_map (λ _. Some (HostCall.WriteFile root.now name.now)) (failed self.old)) }
        ensures failed_kept { UnlessHostFailed result (failed self.new ≡ failed self.old) };
}

impl Copied for HostCall {
    fn copy(&self) -> Result<HostCall, AllocError> {
        match self {
            HostCall::ListRoot { root, most } => Ok(HostCall::ListRoot {
                root: root.copy()?,
                most: *most,
            }),
            HostCall::ReadFile { root, name, most } => Ok(HostCall::ReadFile {
                root: root.copy()?,
                name: name.copy()?,
                most: *most,
            }),
            HostCall::WriteFile { root, name } => Ok(HostCall::WriteFile {
                root: root.copy()?,
                name: name.copy()?,
            }),
        }
    }
}
