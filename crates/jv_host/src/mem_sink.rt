ghost use Rattle.std.specs.Prelude.{◌≡◌, ◌<◌, ◌≤◌, ◌↔◌, ◌++◌, [], List, ℕ, take, length, min, option_map, Contains, IfOk, OnErr, IsErrOf, Some};
ghost use Rattle.jv_host.specs.Counts.{Rises, one_more};
ghost use Rattle.jv_host.specs.SinkAnswer.{OnSinkFailed, UnlessSinkFailed, OnSinkLacking, UnlessSinkLacking, blanks_after};

use crate::sink::{Sink, SinkFault};
use jv_types::Seq;
use std::alloc::Global;
use std::marker::Model;

/// A sink in memory, which tells all that it has taken. It takes at most `step` bytes per call, and the
/// calls whose numbers are in `fail` answer `Failed`. Calls are counted from 1.
#[derive(Debug, Drop)]
pub struct MemSink {
    step: usize,
    fail: Seq<u64>,
    bytes: Vec<u8>,
    calls: u64,
    faults: u64,
    lacks: u64,
    blanks: u64,
}

impl Model for MemSink {
    ghost use Rattle.std.specs.Prelude.{◌<◌};
    ghost use Rattle.jv_host.specs.MemSinkState.{MemSinkState};

    ghost Value = { MemSinkState };

    ghost view = { λ s. record { step = s.step; fail = s.fail; taken = s.bytes.items; calls = s.calls; faults = s.faults; lacks = s.lacks; blanks = s.blanks } };

    ghost invariant = { λ s. 0 < s.step };
}

impl MemSink {
    /// A sink that has taken nothing, which takes no memory.
    pub fn new(alloc: Global, step: usize, fail: Seq<u64>) -> MemSink
        requires { 1 ≤ step }
        ensures { result ≡ record { step = step; fail = fail; taken = []; calls = 0; faults = 0; lacks = 0; blanks = 0 } }
    {
        MemSink {
            step,
            fail,
            bytes: Vec::new(alloc),
            calls: 0,
            faults: 0,
            lacks: 0,
            blanks: 0,
        }
    }

    /// The bytes taken so far.
    pub fn taken(&self) -> &[u8]
        ensures { result.now ≡ self.now.taken }
    {
        self.bytes.as_slice()
    }
}

impl Sink for MemSink {
    ghost taken = { λ s. Some s.taken };

    ghost faults = { λ s. s.faults };

    ghost lacks = { λ s. s.lacks };

    ghost blanks = { λ s. Some s.blanks };

    fn write(&mut self, bytes: &[u8]) -> Result<usize, SinkFault>
        ensures within { IfOk result (λ count. count ≤ length bytes.now) }
        ensures progress { IfOk result (λ count. 0 < length bytes.now → 0 < count) }
        ensures takes { IfOk result (λ count. Some self.new.taken ≡ Some (self.old.taken ++ take count bytes.now)) }
        ensures taken_kept { OnErr result (Some self.new.taken ≡ Some self.old.taken) }

        ensures fault_counted { OnSinkFailed result (Rises self.old.faults self.new.faults) }
        ensures faults_kept { UnlessSinkFailed result (self.new.faults ≡ self.old.faults) }
        ensures faults_never_fall { self.old.faults ≤ self.new.faults }

        ensures lack_counted { OnSinkLacking result (Rises self.old.lacks self.new.lacks) }
        ensures lacks_kept { UnlessSinkLacking result (self.new.lacks ≡ self.old.lacks) }
        ensures lacks_never_fall { self.old.lacks ≤ self.new.lacks }

        ensures blanks_counted { Some self.new.blanks ≡ blanks_after bytes.now (Some self.old.blanks) }

        // As many bytes as are asked for or as a step has, and a fault exactly where one is planned.
        ensures count { IfOk result (λ count. count ≡ min (length bytes.now) self.old.step) }
        ensures planned { IsErrOf result SinkFault.Failed ↔ Contains self.old.fail (one_more self.old.calls) }
        ensures fault_counted_once { OnSinkFailed result (self.new.faults ≡ one_more self.old.faults) }
        ensures lack_counted_once { OnSinkLacking result (self.new.lacks ≡ one_more self.old.lacks) }
        ensures calls_counted { self.new.calls ≡ one_more self.old.calls }
        ensures step_kept { self.new.step ≡ self.old.step }
        ensures plan_kept { self.new.fail ≡ self.old.fail }
    {
        self.calls = self.calls.saturating_add(1);
        if bytes.is_empty() {
            self.blanks = self.blanks.saturating_add(1);
        }
        if self.fail.as_slice().contains(&self.calls) {
            self.faults = self.faults.saturating_add(1);
            return Err(SinkFault::Failed);
        }
        let count = bytes.len().min(self.step);
        match self.bytes.extend_from_slice(&bytes[..count]) {
            Ok(()) => Ok(count),
            Err(_) => {
                self.lacks = self.lacks.saturating_add(1);
                Err(SinkFault::Memory)
            }
        }
    }
}
