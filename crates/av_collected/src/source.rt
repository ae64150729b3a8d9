ghost use Rattle.std.specs.Prelude.{◌≡◌, ◌≤◌, ◌++◌, [], ◌∷◌, List, ℕ, Option, Some, IfOk, IfSome};
ghost use Rattle.jv_types.specs.declared.quantity.Quantity.{Quantity as QuantityValue};
ghost use Rattle.jv_types.specs.declared.shapes.Shape.{Shape as ShapeValue};
ghost use Rattle.jv_host.specs.Counts.{Rises};
ghost use Rattle.jv_host.specs.HostAnswer.{OnHostFailed, UnlessHostFailed};
ghost use Rattle.av_collected.specs.Libraries.{IsLibrary, LibraryFile};
ghost use Rattle.av_collected.specs.Sources.{IsFit, Kept, Says, TellsPassed, answered_after};

use crate::found::ShapeFound;
use jv_host::HostFault;
use jv_types::Name;
use std::alloc::Global;

/// Where the classes of a library are looked up, one by one, as they are wanted.
pub trait ShapeSource {
    /// What the library has, where it is told: a finite map from names to a shape, or to a malformed file. Every
    /// other name is absent. No call changes it.
    ghost shapes: { Self → Option (List LibraryFile) };

    /// What is known of each shape that is answered.
    ghost stated: { ShapeValue → Type 0 };

    /// The names that were asked for, in order.
    ghost asked: { Self → List (List ℕ) };

    /// The names whose calls were not refused, in order.
    ghost answered: { Self → List (List ℕ) };

    /// A quantity that passes its limit, or none. Once there is one it stays.
    ghost passed: { Self → Option QuantityValue };

    /// The name of the last call that answered `Failed`, or none.
    ghost failed: { Self → Option (List ℕ) };

    /// What no call changes of the host below.
    ghost kept: { Self → Kept };

    /// How often a look-up has failed.
    ghost faults: { Self → ℕ };

    /// What the library has under a name.
    ///
    /// # Errors
    ///
    /// `Failed` only where the count of faults rose. `Memory` where memory is wanting.
    fn shape(&mut self, alloc: Global, name: &Name) -> Result<ShapeFound, HostFault>
        ensures library { IfSome (shapes self.old) IsLibrary }
        ensures shapes_kept { shapes self.new ≡ shapes self.old }
        ensures host_kept { kept self.new ≡ kept self.old }

        ensures asked_grows { asked self.new ≡ asked self.old ++ name.now ∷ [] }
        ensures answered_grows { answered self.new ≡ answered_after result name.now (answered self.old) }

        // Unless the call is refused, a quantity that passes is answered, and else what the library has.
        ensures passed_stays { (quantity : QuantityValue) → passed self.old ≡ Some quantity → passed self.new ≡ Some quantity }
        ensures passed { IfOk result (λ found. TellsPassed found (passed self.new)) }
        ensures says { IfOk result (λ found. IfSome (shapes self.old) (λ library. Says library name.now found)) }
        ensures fit { IfOk result (IsFit stated name.now) }

        // Only a fault is counted, and it is then the last one.
        ensures fault_counted { OnHostFailed result (Rises (faults self.old) (faults self.new)) }
        ensures faults_kept { UnlessHostFailed result (faults self.new ≡ faults self.old) }
        ensures never_falls { faults self.old ≤ faults self.new }
        ensures failed_now { OnHostFailed result (failed self.new ≡ Some name.now) }
        ensures failed_kept { UnlessHostFailed result (failed self.new ≡ failed self.old) };
}
