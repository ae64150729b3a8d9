ghost use Rattle.std.specs.Prelude.{◌≡◌, ℕ, List, IfOk, IfErr};
ghost use Rattle.av_collected.specs.Conditions.{AreGiven};
ghost use Rattle.av_given.specs.Givens.{application_of};
ghost use Rattle.av_load.specs.Answers.{InFolders, Reads};
ghost use Rattle.av_program.specs.Answering.{IfStop};
ghost use Rattle.av_stages.specs.Stages.{IsClassCall, IsCollectedFrom, IsCollectedOfSome, StopsCollecting};
ghost use Rattle.av_gathered.specs.Steps.{answer_of};

use crate::noted::Noted;
use av_closure::collect;
use av_collected::{CollectStop, Collected};
use av_given::Given;
use av_library::laws::told_files_are_the_library;
use av_library::{Began, Borrowed, HostSource, Lent};
use av_limits::counted_limits_are_limits;
use av_program::AcceptStop;
use av_stages::stop_of;
use jv_host::Host;
use jv_types::Name;
use std::alloc::Global;
use std::marker::Brand;

/// What is collected over a host, and the host.
struct Gathered<H> {
    host: H,
    found: Result<Collected, AcceptStop>,
}

/// What acceptance answers to an answer of collection, where this is the file whose read failed.
fn answered(
    found: Result<Collected, CollectStop>,
    file: Option<Name>,
) -> Result<Collected, AcceptStop>
    ensures { result ≡ answer_of found file }
{
    match found {
        Ok(found) => Ok(found),
        Err(stop) => Err(stop_of(stop, file)),
    }
}

/// Collects over a host that is owned.
fn collect_from<H: Host, B: Began>(alloc: Global, host: H, lib: &Name, given: &Given) -> Gathered<H>
    requires given { AreGiven (application_of given.now) }
    requires calls { B.calls ≡ H.calls host }
    requires failed { B.failed ≡ H.failed host }
    ensures collected { IfOk result.found (λ found. (app : List ℕ) → InFolders (H.files host) app lib.now (λ folders. IsCollectedFrom folders (application_of given.now) found)) }
    ensures stopped { IfErr result.found (λ stop. (app : List ℕ) → InFolders (H.files host) app lib.now (λ folders. IfStop (StopsCollecting folders (application_of given.now)) stop)) }
    ensures known { IfOk result.found (IsCollectedOfSome (application_of given.now)) }
    ensures reads { Reads (IsClassCall (H.files host) lib.now (application_of given.now))
        (record { files = H.files host; written = H.written host; calls = H.calls host; failed = H.failed host; read_faults = H.read_faults host; write_faults = H.write_faults host })
        (record { files = H.files result.host; written = H.written result.host; calls = H.calls result.host; failed = H.failed result.host; read_faults = H.read_faults result.host; write_faults = H.write_faults result.host }) result.found }
{
    told_files_are_the_library();
    counted_limits_are_limits();
    let mut source = HostSource::<Noted<H>, B>::new(Noted::new(host), lib);
    let shapes = given.shapes.as_slice();
    let maps = given.maps.as_slice();
    let bodies = given.bodies.as_slice();
    let found = collect(alloc, shapes, maps, bodies, &mut source);
    source.tells();
    let Noted { host, failed } = source.into_host();
    let found = answered(found, failed);
    Gathered { host, found }
}

/// Collects over a host that is lent, and gives the borrow back. The answer is left behind `answer`.
fn collect_lent<'a, H: Host, B: Began>(
    alloc: Global,
    host: &'a mut H,
    lib: &Name,
    given: &Given,
    answer: &mut Result<Collected, AcceptStop>,
) -> &'a mut H
    requires given { AreGiven (application_of given.now) }
    requires name { B.name ≡ host.ghost_name }
    requires calls { B.calls ≡ H.calls host.old }
    requires failed { B.failed ≡ H.failed host.old }
    ensures same_reference { result.ghost_name ≡ host.entry.ghost_name }
    ensures collected { IfOk answer.new (λ found. (app : List ℕ) → InFolders (H.files host.old) app lib.now (λ folders. IsCollectedFrom folders (application_of given.now) found)) }
    ensures stopped { IfErr answer.new (λ stop. (app : List ℕ) → InFolders (H.files host.old) app lib.now (λ folders. IfStop (StopsCollecting folders (application_of given.now)) stop)) }
    ensures known { IfOk answer.new (IsCollectedOfSome (application_of given.now)) }
    ensures reads { Reads (IsClassCall (H.files host.old) lib.now (application_of given.now))
        (record { files = H.files host.old; written = H.written host.old; calls = H.calls host.old; failed = H.failed host.old; read_faults = H.read_faults host.old; write_faults = H.write_faults host.old })
        (record { files = H.files result.now; written = H.written result.now; calls = H.calls result.now; failed = H.failed result.now; read_faults = H.read_faults result.now; write_faults = H.write_faults result.now }) answer.new }
{
    let gathered = collect_from::<Lent<'_, H, B>, B>(alloc, Lent::new(host), lib, given);
    let Gathered { host, found } = gathered;
    *answer = found;
    let Borrowed { host } = host.into_borrowed();
    host
}

/// The classes of the library under a root that an application meets. Only the files of those are read.
///
/// # Errors
///
/// `Limit` or `Refused` where a limit of collection passes or a rule on collected classes fails. `ReadFault` with the
/// file whose read failed. `Memory` where memory is wanting.
pub fn gather<H: Host>(
    alloc: Global,
    host: &mut H,
    lib: &Name,
    given: &Given,
) -> Result<Collected, AcceptStop>
    requires { AreGiven (application_of given.now) }
    ensures collected { IfOk result (λ found. (app : List ℕ) → InFolders (H.files host.old) app lib.now (λ folders. IsCollectedFrom folders (application_of given.now) found)) }
    ensures stopped { IfErr result (λ stop. (app : List ℕ) → InFolders (H.files host.old) app lib.now (λ folders. IfStop (StopsCollecting folders (application_of given.now)) stop)) }
    ensures known { IfOk result (IsCollectedOfSome (application_of given.now)) }
    ensures reads { Reads (IsClassCall (H.files host.old) lib.now (application_of given.now))
        (record { files = H.files host.old; written = H.written host.old; calls = H.calls host.old; failed = H.failed host.old; read_faults = H.read_faults host.old; write_faults = H.write_faults host.old })
        (record { files = H.files host.new; written = H.written host.new; calls = H.calls host.new; failed = H.failed host.new; read_faults = H.read_faults host.new; write_faults = H.write_faults host.new }) result }
{
    let mut answer = Err(AcceptStop::Memory);
    collect_lent::<H, Brand>(alloc, host, lib, given, &mut answer);
    answer
}
