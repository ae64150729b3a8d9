ghost use Rattle.std.specs.Prelude.{◌≡◌, ◌≤◌, ℕ, false, List, map, length, IfOk, IfErr, IfSome, OnOk, option_map};
ghost use Rattle.std.specs.Ordering.{nat_cmp};
ghost use Rattle.std.specs.Cmp.Lexicographic.{slice_cmp};
ghost use Rattle.std.specs.List.Sorted.{IsStrictlySortedBy};
ghost use Rattle.av_program.specs.declared.accept_stop.AcceptStop.{AcceptStop as Stop};
ghost use Rattle.av_app_files.specs.FileRules.{AreAllLoaded, AreLoaded, StopsInFiles, most_app_bytes};
ghost use Rattle.jv_host.specs.declared.host.HostCall.TheVariants as calls;
ghost use Rattle.av_program.specs.Answering.{IfStop};
ghost use Rattle.av_program.specs.Reads.{HostView, IsFileCall, is_module_info, most_read};
ghost use Rattle.av_app_files.specs.Reading.{IsOutside};
ghost use Rattle.av_load.specs.Answers.{FitsFiles, InFolders, Reads};
ghost use Rattle.av_load.specs.Classes.{AreClasses};
ghost use Rattle.av_load.specs.Steps.Loading.{AreAllNames, AreOwn, IsNext, IsNextBytes, IsReadAmong, IsReadOf, StopsAmong, StopsAtList, StopsAtName, sources_of};

use crate::app_class::AppClass;
use crate::names::is_module_info;
use crate::next_file::load_class;
use crate::order::in_order;
use av_app_files::{counted, list_names, passed, read_bytes};
use av_program::AcceptStop;
use jv_host::Host;
use jv_types::{Name, Quantity};
use std::alloc::Global;
use std::collections::BTreeSet;

/// One name more than an application may have files.
const MOST_NAMES: usize = 20_001;

/// One byte more than a class file may have.
const MOST_BYTES: usize = 16_777_217;

/// What is loaded so far: the classes, and how many bytes their files have.
#[derive(Drop)]
struct Loaded {
    classes: Vec<AppClass>,
    bytes: u64,
    ghost few: { bytes ≤ most_app_bytes },
}

/// The bytes of the file of this name, and one more than a class file may have at most. There are none for a file that
/// is passed over: one that declares a module, and one that is listed and isn't there.
fn next_bytes<H: Host>(
    alloc: Global,
    host: &mut H,
    app: &Name,
    name: &Name,
) -> Result<Option<Vec<u8>>, AcceptStop>
    ensures gives { IfOk result (λ found. (lib : List ℕ) → InFolders (H.files host.old) app.now lib (λ folders. IsNextBytes folders name.now (option_map (λ bytes. bytes.items) found))) }
    ensures stopped { IfErr result (IsOutside name.now) }
    ensures counts { IfOk result (λ found. IfSome found (λ _. is_module_info name.now ≡ false)) }
    ensures reads { Reads (λ call. (call ≡ calls.ReadFile app.now name.now most_read) × (is_module_info name.now ≡ false))
        (record { files = H.files host.old; written = H.written host.old; calls = H.calls host.old; failed = H.failed host.old; read_faults = H.read_faults host.old; write_faults = H.write_faults host.old })
        (record { files = H.files host.new; written = H.written host.new; calls = H.calls host.new; failed = H.failed host.new; read_faults = H.read_faults host.new; write_faults = H.write_faults host.new }) result }
{
    if is_module_info(name.as_slice()) {
        return Ok(None);
    }
    read_bytes(alloc, host, app, name, MOST_BYTES)
}

/// Loads the file of this name, unless it is passed over.
fn load_next<H: Host>(
    alloc: Global,
    host: &mut H,
    app: &Name,
    lib: &Name,
    name: &Name,
    loaded: &mut Loaded,
) -> Result<(), AcceptStop>
    ensures next { OnOk result (IsNext (H.files host.old) app.now lib.now name.now loaded.old.classes.items loaded.new.classes.items loaded.old.bytes loaded.new.bytes) }
    ensures stopped { IfErr result (λ stop. InFolders (H.files host.old) app.now lib.now (λ folders. IfStop (StopsAtName folders loaded.old.bytes name.now) stop)) }
    ensures reads { Reads (IsReadOf app.now lib.now name.now)
        (record { files = H.files host.old; written = H.written host.old; calls = H.calls host.old; failed = H.failed host.old; read_faults = H.read_faults host.old; write_faults = H.write_faults host.old })
        (record { files = H.files host.new; written = H.written host.new; calls = H.calls host.new; failed = H.failed host.new; read_faults = H.read_faults host.new; write_faults = H.write_faults host.new }) result }
{
    let Some(bytes) = next_bytes(alloc, host, app, name)? else {
        return Ok(());
    };
    let total = counted(loaded.bytes, bytes.len())?;
    let class = load_class(alloc, host, lib, name, bytes.as_slice())?;
    loaded.classes.push(class)?;
    loaded.bytes = total;
    Ok(())
}

/// Loads the files of these names in their order.
fn load_all<H: Host>(
    alloc: Global,
    host: &mut H,
    app: &Name,
    lib: &Name,
    names: BTreeSet<Name>,
) -> Result<Vec<AppClass>, AcceptStop>
    requires { IsStrictlySortedBy (slice_cmp nat_cmp) names.keys }
    ensures loaded { IfOk result (λ classes. InFolders (H.files host.old) app.now lib.now
        (λ folders. AreLoaded folders (sources_of folders names.keys) (map (λ class. class.file) classes.items))) }
    ensures own { IfOk result (λ classes. AreOwn names.keys classes.items) }
    ensures stopped { IfErr result (λ stop. InFolders (H.files host.old) app.now lib.now (λ folders. IfStop (StopsAmong folders names.keys) stop)) }
    ensures reads { Reads (IsReadAmong app.now lib.now names.keys)
        (record { files = H.files host.old; written = H.written host.old; calls = H.calls host.old; failed = H.failed host.old; read_faults = H.read_faults host.old; write_faults = H.write_faults host.old })
        (record { files = H.files host.new; written = H.written host.new; calls = H.calls host.new; failed = H.failed host.new; read_faults = H.read_faults host.new; write_faults = H.write_faults host.new }) result }
{
    let mut left = names;
    let mut loaded = Loaded {
        classes: Vec::new(alloc),
        bytes: 0,
    };
    while let Some(name) = left.pop_first() {
        load_next(alloc, host, app, lib, &name, &mut loaded)?;
    }
    Ok(loaded.classes)
}

/// The names of the class files of an application in order of their bytes.
fn names_in_order<H: Host>(
    alloc: Global,
    host: &mut H,
    app: &Name,
) -> Result<BTreeSet<Name>, AcceptStop>
    ensures listed { IfOk result (λ names. (lib : List ℕ) → InFolders (H.files host.old) app.now lib (λ folders. AreAllNames folders names.keys)) }
    ensures rising { IfOk result (λ names. IsStrictlySortedBy (slice_cmp nat_cmp) names.keys) }
    ensures few { IfOk result (λ names. length names.keys ≤ 20000) }
    ensures stopped { IfErr result (λ stop. (lib : List ℕ) → InFolders (H.files host.old) app.now lib (λ folders. IfStop (StopsAtList folders) stop)) }
    ensures reads { Reads (λ call. call ≡ calls.ListRoot app.now 20001)
        (record { files = H.files host.old; written = H.written host.old; calls = H.calls host.old; failed = H.failed host.old; read_faults = H.read_faults host.old; write_faults = H.write_faults host.old })
        (record { files = H.files host.new; written = H.written host.new; calls = H.calls host.new; failed = H.failed host.new; read_faults = H.read_faults host.new; write_faults = H.write_faults host.new }) result }
{
    let listed = list_names(alloc, host, app, MOST_NAMES)?;
    if listed.len() >= MOST_NAMES {
        return Err(passed(Quantity::Files));
    }
    Ok(in_order(alloc, listed)?)
}

/// The classes of an application, in order of the names of their files. Each file is held against the limits on the
/// bytes of files and the rules on single files before the next one is read, and its bytes are let go. Files that
/// declare modules are passed over, and so is one that is listed and isn't there.
///
/// # Errors
///
/// `Limit` or `Refused` at the first file that passes a limit or fails a rule, and before at too many files.
/// `ReadFault` with the root or the name where the host failed. `Memory` where memory is wanting.
pub fn load_files<H: Host>(
    alloc: Global,
    host: &mut H,
    app: &Name,
    lib: &Name,
) -> Result<Vec<AppClass>, AcceptStop>
    ensures loaded { IfOk result (λ classes. InFolders (H.files host.old) app.now lib.now (λ folders. AreAllLoaded folders (map (λ class. class.file) classes.items))) }
    ensures classes { IfOk result (λ classes. AreClasses classes.items) }
    ensures stopped { IfErr result (λ stop. InFolders (H.files host.old) app.now lib.now (λ folders. IfStop (StopsInFiles folders) stop)) }
    ensures exact { InFolders (H.files host.old) app.now lib.now (λ folders. (stop : Stop) → StopsInFiles folders stop → FitsFiles stop result) }
    ensures reads { Reads (IsFileCall (H.files host.old) app.now lib.now)
        (record { files = H.files host.old; written = H.written host.old; calls = H.calls host.old; failed = H.failed host.old; read_faults = H.read_faults host.old; write_faults = H.write_faults host.old })
        (record { files = H.files host.new; written = H.written host.new; calls = H.calls host.new; failed = H.failed host.new; read_faults = H.read_faults host.new; write_faults = H.write_faults host.new }) result }
{
    let names = names_in_order(alloc, host, app)?;
    load_all(alloc, host, app, lib, names)
}
