ghost use Rattle.std.specs.Prelude.{◌≡◌, ◌≤◌, ℕ, Some, vec_len, take, option_map, IfOk, IfErr, IfSome};
ghost use Rattle.jv_host.specs.declared.host.HostCall.TheVariants as calls;
ghost use Rattle.jv_host.specs.Files.{Lists, bytes_of};
ghost use Rattle.av_app_files.specs.Reading.{EndsReading, HostView, IsOutside, KeepsFiles, Makes};

use av_program::AcceptStop;
use jv_host::{Host, HostFault};
use jv_types::{Copied, Name};
use std::alloc::Global;

/// That the host failed at this name, unless memory is wanting to say so.
fn fault_at(name: &Name) -> AcceptStop
    ensures { IsOutside name.now result }
{
    match name.copy() {
        Ok(name) => AcceptStop::ReadFault(name),
        Err(_) => AcceptStop::Memory,
    }
}

/// What a fault of the host is told as.
fn outside(fault: HostFault, name: &Name) -> AcceptStop
    ensures told { IsOutside name.now result }
    ensures lacking { fault ≡ HostFault.Memory → result ≡ AcceptStop.Memory }
{
    match fault {
        HostFault::Failed => fault_at(name),
        HostFault::Memory => AcceptStop::Memory,
    }
}

/// The names of the class files under a root, at most so many.
///
/// # Errors
///
/// `ReadFault` with the root where the host failed. `Memory` where memory is wanting.
pub fn list_names<H: Host>(
    alloc: Global,
    host: &mut H,
    root: &Name,
    most: usize,
) -> Result<Vec<Name>, AcceptStop>
    ensures at_most { IfOk result (λ names. vec_len names ≤ most) }
    ensures gives { IfOk result (λ names. IfSome (H.files host.old) (λ told. Lists told root.now most names.items)) }
    ensures stopped { IfErr result (IsOutside root.now) }

    ensures kept { KeepsFiles
        (record { files = H.files host.old; written = H.written host.old; calls = H.calls host.old; failed = H.failed host.old; read_faults = H.read_faults host.old; write_faults = H.write_faults host.old })
        (record { files = H.files host.new; written = H.written host.new; calls = H.calls host.new; failed = H.failed host.new; read_faults = H.read_faults host.new; write_faults = H.write_faults host.new }) }
    ensures makes { Makes (λ call. call ≡ calls.ListRoot root.now most)
        (record { files = H.files host.old; written = H.written host.old; calls = H.calls host.old; failed = H.failed host.old; read_faults = H.read_faults host.old; write_faults = H.write_faults host.old })
        (record { files = H.files host.new; written = H.written host.new; calls = H.calls host.new; failed = H.failed host.new; read_faults = H.read_faults host.new; write_faults = H.write_faults host.new }) }
    ensures ends { EndsReading (λ call. call ≡ calls.ListRoot root.now most)
        (record { files = H.files host.old; written = H.written host.old; calls = H.calls host.old; failed = H.failed host.old; read_faults = H.read_faults host.old; write_faults = H.write_faults host.old })
        (record { files = H.files host.new; written = H.written host.new; calls = H.calls host.new; failed = H.failed host.new; read_faults = H.read_faults host.new; write_faults = H.write_faults host.new }) result }
{
    match host.list(alloc, root, most) {
        Ok(names) => Ok(names),
        Err(fault) => Err(outside(fault, root)),
    }
}

/// The first bytes of a file, at most so many, or none where there is no such file.
///
/// # Errors
///
/// `ReadFault` with the file's name where the host failed. `Memory` where memory is wanting.
pub fn read_bytes<H: Host>(
    alloc: Global,
    host: &mut H,
    root: &Name,
    name: &Name,
    most: usize,
) -> Result<Option<Vec<u8>>, AcceptStop>
    ensures at_most { IfOk result (λ found. IfSome found (λ bytes. vec_len bytes ≤ most)) }
    ensures gives { IfOk result (λ found. IfSome (H.files host.old) (λ told.
        option_map (λ bytes. bytes.items) found ≡ option_map (take most) (bytes_of told root.now name.now))) }
    ensures stopped { IfErr result (IsOutside name.now) }

    ensures kept { KeepsFiles
        (record { files = H.files host.old; written = H.written host.old; calls = H.calls host.old; failed = H.failed host.old; read_faults = H.read_faults host.old; write_faults = H.write_faults host.old })
        (record { files = H.files host.new; written = H.written host.new; calls = H.calls host.new; failed = H.failed host.new; read_faults = H.read_faults host.new; write_faults = H.write_faults host.new }) }
    ensures makes { Makes (λ call. call ≡ calls.ReadFile root.now name.now most)
        (record { files = H.files host.old; written = H.written host.old; calls = H.calls host.old; failed = H.failed host.old; read_faults = H.read_faults host.old; write_faults = H.write_faults host.old })
        (record { files = H.files host.new; written = H.written host.new; calls = H.calls host.new; failed = H.failed host.new; read_faults = H.read_faults host.new; write_faults = H.write_faults host.new }) }
    ensures ends { EndsReading (λ call. call ≡ calls.ReadFile root.now name.now most)
        (record { files = H.files host.old; written = H.written host.old; calls = H.calls host.old; failed = H.failed host.old; read_faults = H.read_faults host.old; write_faults = H.write_faults host.old })
        (record { files = H.files host.new; written = H.written host.new; calls = H.calls host.new; failed = H.failed host.new; read_faults = H.read_faults host.new; write_faults = H.write_faults host.new }) result }
{
    match host.read(alloc, root, name, most) {
        Ok(found) => Ok(found),
        Err(fault) => Err(outside(fault, name)),
    }
}
