ghost use Rattle.std.specs.Prelude.{◌≡◌, ◌++◌, [], ℕ, List, None, Some, option_map, IfSome, Contains};
ghost use Rattle.jv_types.specs.declared.quantity.Quantity.{Quantity as QuantityValue};
ghost use Rattle.jv_host.specs.declared.host.HostCall.{HostCall};
ghost use Rattle.av_stops.specs.LibraryFolders.{IsStated};
ghost use Rattle.av_library.specs.Counting.{AreCounted, PassNone, PassesBy, passed_of};
ghost use Rattle.av_library.specs.History.{IsReadOf, answered_in, asked_in, failed_after, failed_in, read_of, reads_in};
ghost use Rattle.av_library.specs.Told.{library_in};

use crate::counted::Counted;
use crate::history::Asked;
use crate::lent::Began;
use crate::looking::look;
use av_collected::{ShapeFound, ShapeSource};
use http_server::Log;
use jv_host::{Host, HostFault};
use jv_types::Name;
use std::alloc::Global;
use std::marker::PhantomData;

/// The classes in the library's folder of a host.
pub struct HostSource<'a, H: Host, B: Began> {
    host: H,
    lib: &'a Name,
    counted: Counted,
    history: Log<Name, Asked>,
    of: PhantomData<B>,
    pub ghost right: { ∥ IfSome (H.Host.files host) (λ files. AreCounted files lib.now (answered_in history.items) counted) ∥₁ },
    pub ghost called: { H.Host.calls host ≡ option_map (λ earlier. earlier ++ reads_in lib.now history.items) B.Began.calls },
    pub ghost failed: { H.Host.failed host ≡ failed_after lib.now history.items B.Began.failed },
}

impl<'a, H: Host, B: Began> HostSource<'a, H, B> {
    /// A source over a host, of the library under this root. Nothing was asked yet.
    pub fn new(host: H, lib: &'a Name) -> HostSource<'a, H, B>
        requires calls { B.calls ≡ H.calls host }
        requires failed { B.failed ≡ H.failed host }
        ensures host { result.host ≡ host }
        ensures lib { result.lib.now ≡ lib.now }
        ensures history { result.history.items ≡ [] }
    {
        HostSource {
            host,
            lib,
            counted: Counted {
                bytes: 0,
                long: false,
            },
            history: Log::new(),
            of: PhantomData,
        }
    }

    /// A law of each source: the quantity that passes its limit is one that passes by the files of the names that were
    /// answered, and where none does none passes. The calls that the host tells are those before the source was made,
    /// and the reads of the files of names that were asked. The last call that failed, where the host tells it, is the
    /// read of the last name at which the source failed, or the one before the source was made where it has not failed.
    pub fn tells(&self)
        ensures passes { IfSome (H.files self.now.host) (λ files. (quantity : QuantityValue) → passed_of self.now.counted ≡ Some quantity
            → PassesBy files self.now.lib.now (answered_in self.now.history.items) quantity) }
        ensures within { IfSome (H.files self.now.host) (λ files. passed_of self.now.counted ≡ None → PassNone files self.now.lib.now (answered_in self.now.history.items)) }
        ensures reads { (call : HostCall) → Contains (reads_in self.now.lib.now self.now.history.items) call → IsReadOf (asked_in self.now.history.items) self.now.lib.now call }
        ensures failed { (name : List ℕ) → failed_in self.now.history.items ≡ Some name
            → IfSome (H.failed self.now.host) (λ told. told ≡ Some (read_of self.now.lib.now name)) }
        ensures failed_not { failed_in self.now.history.items ≡ None → H.failed self.now.host ≡ B.failed }
        ensures called { H.calls self.now.host ≡ option_map (λ earlier. earlier ++ reads_in self.now.lib.now self.now.history.items) B.calls }
    {}

    /// The host.
    pub fn into_host(self) -> H
        ensures { result ≡ self.entry.host }
    {
        let HostSource {
            host,
            lib: _lib,
            counted: _counted,
            history: _history,
            of: _of,
        } = self;
        host
    }
}

impl<H: Host, B: Began> ShapeSource for HostSource<'_, H, B> {
    ghost shapes = { λ source. option_map (λ files. library_in files source.lib.now) (H.files source.host) };

    ghost stated = { IsStated };

    ghost asked = { λ source. asked_in source.history.items };

    ghost answered = { λ source. answered_in source.history.items };

    ghost passed = { λ source. passed_of source.counted };

    ghost failed = { λ source. failed_in source.history.items };

    ghost kept = { λ source. record { write_faults = H.write_faults source.host; root = source.lib.now; files = H.files source.host; written = H.written source.host } };

    ghost faults = { λ source. H.read_faults source.host };

    fn shape(&mut self, alloc: Global, name: &Name) -> Result<ShapeFound, HostFault> {
        let looked = look(alloc, &mut self.host, self.lib, name, self.counted);
        self.counted = looked.counted;
        self.history = self.history.and(name, &looked.asked);
        looked.found
    }
}
