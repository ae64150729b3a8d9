ghost use Rattle.std.specs.Prelude.{◌≡◌, true, None};
ghost use Rattle.av_gathered.specs.Steps.{is_told_by};

use jv_host::{Host, HostFault};
use jv_types::{Copied, Name};
use std::alloc::Global;

/// A host, and the name of the file whose read failed last. There is none where memory was wanting to keep it.
pub struct Noted<H: Host> {
    pub host: H,
    pub failed: Option<Name>,
    pub ghost named: { is_told_by failed (H.Host.failed host) ≡ true },
}

impl<H: Host> Noted<H> {
    /// A host of which no read has failed since.
    pub fn new(host: H) -> Noted<H>
        ensures host { result.host ≡ host }
        ensures failed { result.failed ≡ None }
    {
        Noted { host, failed: None }
    }
}

impl<H: Host> Host for Noted<H> {
    ghost files = { λ noted. H.files noted.host };

    ghost written = { λ noted. H.written noted.host };

    ghost calls = { λ noted. H.calls noted.host };

    ghost asked = { λ noted. H.asked noted.host };

    ghost failed = { λ noted. H.failed noted.host };

    ghost read_faults = { λ noted. H.read_faults noted.host };

    ghost write_faults = { λ noted. H.write_faults noted.host };

    fn list(&mut self, alloc: Global, root: &Name, most: usize) -> Result<Vec<Name>, HostFault> {
        self.failed = None;
        self.host.list(alloc, root, most)
    }

    fn read(
        &mut self,
        alloc: Global,
        root: &Name,
        name: &Name,
        most: usize,
    ) -> Result<Option<Vec<u8>>, HostFault> {
        let answer = self.host.read(alloc, root, name, most);
        if let Err(HostFault::Failed) = answer {
            self.failed = match name.copy() {
                Ok(file) => Some(file),
                Err(_) => None,
            };
        }
        answer
    }

    fn write(
        &mut self,
        alloc: Global,
        root: &Name,
        name: &Name,
        bytes: &[u8],
    ) -> Result<(), HostFault> {
        self.failed = None;
        self.host.write(alloc, root, name, bytes)
    }
}
