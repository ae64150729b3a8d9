ghost use Rattle.std.specs.Prelude.{◌≡◌, ◌⊎◌, ◌∷◌, [], ◌++◌, Some, IfOk, IfSome, take, option_map};
ghost use Rattle.jv_host.specs.declared.host.HostCall.{HostCall};
ghost use Rattle.jv_host.specs.declared.host.HostCall.TheVariants.{ReadFile};
ghost use Rattle.jv_host.specs.Counts.{Rises, one_more};
ghost use Rattle.jv_host.specs.Files.{bytes_of};
ghost use Rattle.jv_host.specs.HostAnswer.{OnHostFailed};
ghost use Rattle.av_cli.specs.Calls.Answers.{file_name, file_most};
ghost use Rattle.av_cli.specs.Calls.Ending.{Prints, Concludes};

use crate::calls::answer::Answer;
use crate::calls::graph::{GraphError, call_graph};
use av_outcome::write_lines;
use jv_host::{Host, HostFault, Sink, SinkFault};
use jv_types::Name;
use std::alloc::{AllocError, Global};

/// As many bytes of a file as show whether it is too long for a class file.
#[tactic(auto, unfolding(crate::specs::Calls::Answers::file_most))]
fn file_most() -> usize
    ensures { result ≡ file_most }
{
    16_777_217
}

/// The name of a class's file under its root. Only memory can be wanting.
fn file_name(alloc: Global, name: &[u8]) -> Result<Name, AllocError>
    ensures { IfOk result (λ made. made ≡ file_name name.now) }
{
    let mut bytes = Vec::from_slice(alloc, name)?;
    bytes.extend_from_slice(b".class")?;
    Ok(Name::from_vec(bytes))
}

/// Reads a class's file under a root, or as much of it as shows that it is too long. No call but this
/// read is made of the host.
fn read_class_file<H: Host>(
    alloc: Global,
    root: &[u8],
    name: &[u8],
    host: &mut H,
) -> Result<Option<Vec<u8>>, HostFault>
    ensures gives { IfOk result (λ found. IfSome (H.files host.old) (λ told.
        option_map (λ bytes. bytes.items) found ≡ option_map (take file_most) (bytes_of told root.now (file_name name.now)))) }
    ensures fault_counted { OnHostFailed result (Rises (H.read_faults host.old) (H.read_faults host.new)) }
    ensures failed_now { OnHostFailed result (IfSome (H.failed host.new) (λ call. call ≡ Some (ReadFile root.now (file_name name.now) file_most))) }

    ensures files_kept { H.files host.new ≡ H.files host.old }
    ensures written_kept { H.written host.new ≡ H.written host.old }
    ensures write_faults_kept { H.write_faults host.new ≡ H.write_faults host.old }
    ensures asked_at_most_once { (H.asked host.new ≡ H.asked host.old) ⊎ (H.asked host.new ≡ option_map one_more (H.asked host.old)) }
    ensures only_read { (H.calls host.new ≡ H.calls host.old)
        ⊎ (H.calls host.new ≡ option_map (λ calls. calls ++ ReadFile root.now (file_name name.now) file_most ∷ []) (H.calls host.old)) }
{
    let root = Name::from_slice(alloc, root)?;
    let file = file_name(alloc, name)?;
    host.read(alloc, &root, &file, file_most())
}

/// Prints the lines of the class of this name that the bytes are.
fn print_calls<O: Sink>(alloc: Global, name: &[u8], bytes: &[u8], out: &mut O) -> Answer
    ensures prints { Prints name.now bytes.now (record { taken = O.taken out.old; faults = O.faults out.old; lacks = O.lacks out.old })
        (record { taken = O.taken out.new; faults = O.faults out.new; lacks = O.lacks out.new }) result }
    ensures no_blanks { O.blanks out.new ≡ O.blanks out.old }
{
    let lines = match call_graph(alloc, name, bytes) {
        Ok(lines) => lines,
        Err(GraphError::Memory) => return Answer::OutOfMemory,
        Err(GraphError::TooLarge) => return Answer::TooLarge,
        Err(GraphError::NotClass) => return Answer::NotClass,
        Err(GraphError::OutsideForm) => return Answer::OutsideForm,
        Err(GraphError::NoMain) => return Answer::NoMain,
    };
    match write_lines(out, lines) {
        Ok(()) => Answer::Printed,
        Err(SinkFault::Failed) => Answer::Unwritable,
        Err(SinkFault::Memory) => Answer::OutOfMemory,
    }
}

/// Reads a class's file under a root, and prints its lines.
pub fn print_class<H: Host, O: Sink>(
    alloc: Global,
    root: &[u8],
    name: &[u8],
    host: &mut H,
    out: &mut O,
) -> Answer
    ensures concludes { Concludes (record {
      files = H.files host.old;
      reads_before = H.read_faults host.old;
      reads_after = H.read_faults host.new;
      failed = H.failed host.new;
      out_before = record { taken = O.taken out.old; faults = O.faults out.old; lacks = O.lacks out.old };
      out_after = record { taken = O.taken out.new; faults = O.faults out.new; lacks = O.lacks out.new };
    }) root.now name.now result }
    ensures no_blanks { O.blanks out.new ≡ O.blanks out.old }

    ensures files_kept { H.files host.new ≡ H.files host.old }
    ensures written_kept { H.written host.new ≡ H.written host.old }
    ensures write_faults_kept { H.write_faults host.new ≡ H.write_faults host.old }
    ensures asked_at_most_once { (H.asked host.new ≡ H.asked host.old) ⊎ (H.asked host.new ≡ option_map one_more (H.asked host.old)) }
    ensures only_read { (H.calls host.new ≡ H.calls host.old)
        ⊎ (H.calls host.new ≡ option_map (λ calls. calls ++ ReadFile root.now (file_name name.now) file_most ∷ []) (H.calls host.old)) }
{
    match read_class_file(alloc, root, name, host) {
        Ok(Some(bytes)) => print_calls(alloc, name, bytes.as_slice(), out),
        Ok(None) => Answer::NoFile,
        Err(HostFault::Failed) => Answer::Unreadable,
        Err(HostFault::Memory) => Answer::OutOfMemory,
    }
}
