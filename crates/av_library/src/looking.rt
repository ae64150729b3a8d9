ghost use Rattle.std.specs.Prelude.{◌≡◌, ◌≤◌, ◌+◌, ℕ, true, false, length, is_ok, None, Some, IfOk, IfSome};
ghost use Rattle.jv_types.specs.declared.quantity.Quantity.{Quantity as QuantityValue};
ghost use Rattle.jv_host.specs.Counts.{Rises};
ghost use Rattle.jv_host.specs.HostAnswer.{OnHostFailed, UnlessHostFailed};
ghost use Rattle.av_program.specs.Reads.{most_read};
ghost use Rattle.av_collected.specs.Sources.{IsFit, Says, TellsPassed};
ghost use Rattle.av_app_files.specs.Folders.{file_of, is_module_info};
ghost use Rattle.av_stops.specs.LibraryFolders.{IsStated};
ghost use Rattle.av_library.specs.Counting.{counted_for, passed_of, size_of};
ghost use Rattle.av_library.specs.History.{calls_with, failed_with, is_answered, is_failed, is_read, read_of};
ghost use Rattle.av_library.specs.Told.{library_in};
ghost use Rattle.av_library.specs.Steps.{IsFoundIn};

use crate::counted::{Counted, count, passed};
use crate::history::Asked;
use crate::worth::{file_of, is_module_info, worth};
use av_collected::ShapeFound;
use jv_host::{Host, HostFault};
use jv_types::{Name, Quantity};
use std::alloc::Global;

/// What a call came to: its answer, what is counted after it, and what is noted of it.
#[derive(Drop)]
pub struct Looked {
    pub found: Result<ShapeFound, HostFault>,
    pub counted: Counted,
    pub asked: Asked,
}

/// One byte more than a class file may have: the most that is read of a file.
fn most_read() -> usize
    ensures { result ≡ most_read }
{
    Quantity::FileBytes.limit() as usize + 1
}

/// What is answered from the bytes that were read of the file of the class of this name. They are counted first.
fn weighed(alloc: Global, name: &Name, bytes: &[u8], counted: Counted) -> Looked
    requires { passed_of counted ≡ None }
    ensures counted { result.counted ≡ counted_for (is_answered result.asked) (length bytes.now) counted }
    ensures answered { is_answered result.asked ≡ is_ok result.found }
    ensures read { is_read result.asked ≡ true }
    ensures no_fault { UnlessHostFailed result.found (is_failed result.asked ≡ false) }
    ensures never_fails { OnHostFailed result.found ⊥ }
    ensures tells { IfOk result.found (λ found. TellsPassed found (passed_of result.counted)) }
    ensures found { IfOk result.found (IsFoundIn name.now bytes.now) }
{
    let after = count(counted, bytes.len());
    if let Some(quantity) = passed(after) {
        return Looked {
            found: Ok(ShapeFound::TooMuch(quantity)),
            counted: after,
            asked: Asked::Read,
        };
    }
    let found = match worth(alloc, name, bytes) {
        Ok(Some(shape)) => ShapeFound::Shape(shape),
        Ok(None) => ShapeFound::Malformed,
        Err(_) => {
            return Looked {
                found: Err(HostFault::Memory),
                counted,
                asked: Asked::LackingAfter,
            };
        }
    };
    Looked {
        found: Ok(found),
        counted: after,
        asked: Asked::Read,
    }
}

/// Reads the file of the class of this name, and answers from it.
fn read_file<H: Host>(
    alloc: Global,
    host: &mut H,
    lib: &Name,
    name: &Name,
    file: &Name,
    counted: Counted,
) -> Looked
    requires file { file.now ≡ file_of name.now }
    requires counts { is_module_info file.now ≡ false }
    requires not_passed { passed_of counted ≡ None }
    // What the host keeps, and what is noted.
    ensures files_kept { H.files host.new ≡ H.files host.old }
    ensures written_kept { H.written host.new ≡ H.written host.old }
    ensures write_faults_kept { H.write_faults host.new ≡ H.write_faults host.old }
    ensures answered { is_answered result.asked ≡ is_ok result.found }
    ensures calls { H.calls host.new ≡ calls_with (is_read result.asked) (read_of lib.now name.now) (H.calls host.old) }
    ensures failed { H.failed host.new ≡ failed_with (is_failed result.asked) (read_of lib.now name.now) (H.failed host.old) }

    // Only a fault is counted.
    ensures fault_counted { OnHostFailed result.found (Rises (H.read_faults host.old) (H.read_faults host.new)) }
    ensures faults_kept { UnlessHostFailed result.found (H.read_faults host.new ≡ H.read_faults host.old) }
    ensures never_falls { H.read_faults host.old ≤ H.read_faults host.new }
    ensures fault_noted { OnHostFailed result.found (is_failed result.asked ≡ true) }
    ensures no_fault_noted { UnlessHostFailed result.found (is_failed result.asked ≡ false) }

    // What is counted, and what is answered.
    ensures counted { IfSome (H.files host.old) (λ files. result.counted ≡ counted_for (is_answered result.asked) (size_of files lib.now name.now) counted) }
    ensures tells { IfOk result.found (λ found. TellsPassed found (passed_of result.counted)) }
    ensures says { IfOk result.found (λ found. IfSome (H.files host.old) (λ files. Says (library_in files lib.now) name.now found)) }
    ensures fit { IfOk result.found (IsFit IsStated name.now) }
{
    match host.read(alloc, lib, file, most_read()) {
        Ok(Some(bytes)) => weighed(alloc, name, bytes.as_slice(), counted),
        Ok(None) => Looked {
            found: Ok(ShapeFound::Absent),
            counted,
            asked: Asked::Read,
        },
        Err(HostFault::Failed) => Looked {
            found: Err(HostFault::Failed),
            counted,
            asked: Asked::Failed,
        },
        Err(HostFault::Memory) => Looked {
            found: Err(HostFault::Memory),
            counted,
            asked: Asked::Lacking,
        },
    }
}

/// Looks up a name where no limit has passed. A name whose file would declare a module is absent.
fn look_up<H: Host>(
    alloc: Global,
    host: &mut H,
    lib: &Name,
    name: &Name,
    counted: Counted,
) -> Looked
    requires { passed_of counted ≡ None }
    // What the host keeps, and what is noted.
    ensures files_kept { H.files host.new ≡ H.files host.old }
    ensures written_kept { H.written host.new ≡ H.written host.old }
    ensures write_faults_kept { H.write_faults host.new ≡ H.write_faults host.old }
    ensures answered { is_answered result.asked ≡ is_ok result.found }
    ensures calls { H.calls host.new ≡ calls_with (is_read result.asked) (read_of lib.now name.now) (H.calls host.old) }
    ensures failed { H.failed host.new ≡ failed_with (is_failed result.asked) (read_of lib.now name.now) (H.failed host.old) }

    // Only a fault is counted.
    ensures fault_counted { OnHostFailed result.found (Rises (H.read_faults host.old) (H.read_faults host.new)) }
    ensures faults_kept { UnlessHostFailed result.found (H.read_faults host.new ≡ H.read_faults host.old) }
    ensures never_falls { H.read_faults host.old ≤ H.read_faults host.new }
    ensures fault_noted { OnHostFailed result.found (is_failed result.asked ≡ true) }
    ensures no_fault_noted { UnlessHostFailed result.found (is_failed result.asked ≡ false) }

    // What is counted, and what is answered.
    ensures counted { IfSome (H.files host.old) (λ files. result.counted ≡ counted_for (is_answered result.asked) (size_of files lib.now name.now) counted) }
    ensures tells { IfOk result.found (λ found. TellsPassed found (passed_of result.counted)) }
    ensures says { IfOk result.found (λ found. IfSome (H.files host.old) (λ files. Says (library_in files lib.now) name.now found)) }
    ensures fit { IfOk result.found (IsFit IsStated name.now) }
{
    let Ok(file) = file_of(alloc, name) else {
        return Looked {
            found: Err(HostFault::Memory),
            counted,
            asked: Asked::Lacking,
        };
    };
    if is_module_info(&file) {
        return Looked {
            found: Ok(ShapeFound::Absent),
            counted,
            asked: Asked::Unread,
        };
    }
    read_file(alloc, host, lib, name, &file, counted)
}

/// Looks up a name. Where a limit has passed, nothing is read. At most one byte more than a class file may have is
/// read of a file.
pub fn look<H: Host>(
    alloc: Global,
    host: &mut H,
    lib: &Name,
    name: &Name,
    counted: Counted,
) -> Looked
    // What the host keeps, and what is noted.
    ensures files_kept { H.files host.new ≡ H.files host.old }
    ensures written_kept { H.written host.new ≡ H.written host.old }
    ensures write_faults_kept { H.write_faults host.new ≡ H.write_faults host.old }
    ensures answered { is_answered result.asked ≡ is_ok result.found }
    ensures calls { H.calls host.new ≡ calls_with (is_read result.asked) (read_of lib.now name.now) (H.calls host.old) }
    ensures failed { H.failed host.new ≡ failed_with (is_failed result.asked) (read_of lib.now name.now) (H.failed host.old) }

    // Only a fault is counted.
    ensures fault_counted { OnHostFailed result.found (Rises (H.read_faults host.old) (H.read_faults host.new)) }
    ensures faults_kept { UnlessHostFailed result.found (H.read_faults host.new ≡ H.read_faults host.old) }
    ensures never_falls { H.read_faults host.old ≤ H.read_faults host.new }
    ensures fault_noted { OnHostFailed result.found (is_failed result.asked ≡ true) }
    ensures no_fault_noted { UnlessHostFailed result.found (is_failed result.asked ≡ false) }

    // What is counted, and what is answered.
    ensures stays { (quantity : QuantityValue) → passed_of counted ≡ Some quantity → result.counted ≡ counted }
    ensures counted { IfSome (H.files host.old) (λ files. result.counted ≡ counted_for (is_answered result.asked) (size_of files lib.now name.now) counted) }
    ensures tells { IfOk result.found (λ found. TellsPassed found (passed_of result.counted)) }
    ensures says { IfOk result.found (λ found. IfSome (H.files host.old) (λ files. Says (library_in files lib.now) name.now found)) }
    ensures fit { IfOk result.found (IsFit IsStated name.now) }
{
    if let Some(quantity) = passed(counted) {
        return Looked {
            found: Ok(ShapeFound::TooMuch(quantity)),
            counted,
            asked: Asked::Unread,
        };
    }
    look_up(alloc, host, lib, name, counted)
}
