ghost use Rattle.std.specs.Prelude.{◌≡◌, ◌<◌, ◌≤◌, ◌++◌, List, ℕ, Option, take, length, option_map, IfOk, OnErr};
ghost use Rattle.jv_host.specs.Counts.{Rises};
ghost use Rattle.jv_host.specs.SinkAnswer.{OnSinkFailed, UnlessSinkFailed, OnSinkLacking, UnlessSinkLacking, blanks_after};

/// Why a sink takes nothing.
#[derive(Clone, Copy, Debug, PartialEq, Eq)]
pub enum SinkFault {
    /// The outside refused.
    Failed,
    /// The sink's own memory is wanting.
    Memory,
}

/// Where printed bytes go. What a sink has taken is told optionally: the standard output tells nothing
/// but its two counts.
pub trait Sink {
    /// The bytes taken so far, where they are told.
    ghost taken: { Self → Option (List ℕ) };

    /// How often a write has failed.
    ghost faults: { Self → ℕ };

    /// How often the sink's own memory was wanting.
    ghost lacks: { Self → ℕ };

    /// How many empty pieces were handed to it, where it is told.
    ghost blanks: { Self → Option ℕ };

    /// Takes a front of the bytes, and says how many: at least one, where there is one.
    fn write(&mut self, bytes: &[u8]) -> Result<usize, SinkFault>
        ensures within { IfOk result (λ count. count ≤ length bytes.now) }
        ensures progress { IfOk result (λ count. 0 < length bytes.now → 0 < count) }
        ensures takes { IfOk result (λ count. taken self.new ≡ option_map (λ before. before ++ take count bytes.now) (taken self.old)) }
        ensures taken_kept { OnErr result (taken self.new ≡ taken self.old) }

        ensures fault_counted { OnSinkFailed result (Rises (faults self.old) (faults self.new)) }
        ensures faults_kept { UnlessSinkFailed result (faults self.new ≡ faults self.old) }
        ensures faults_never_fall { faults self.old ≤ faults self.new }

        ensures lack_counted { OnSinkLacking result (Rises (lacks self.old) (lacks self.new)) }
        ensures lacks_kept { UnlessSinkLacking result (lacks self.new ≡ lacks self.old) }
        ensures lacks_never_fall { lacks self.old ≤ lacks self.new }

        ensures blanks_counted { blanks self.new ≡ blanks_after bytes.now (blanks self.old) };
}
