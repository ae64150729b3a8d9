//! Laws of what comes first. Each function does nothing, and its contract is the law.

ghost use Rattle.std.specs.Prelude.{◌≡◌, ◌⊎◌, ℕ, List, Option, Result};
ghost use Rattle.av_acceptor.specs.Accepting.{Tells};
ghost use Rattle.av_program.specs.declared.accept_stop.AcceptStop.{AcceptStop};
ghost use Rattle.av_program.specs.declared.program.Program.{Program};
ghost use Rattle.av_app_files.specs.Folders.{Folders};
ghost use Rattle.av_program.specs.Answering.{Fits, IsLimit};
ghost use Rattle.av_stops.specs.FirstStops.{FirstStop};
ghost use Rattle.av_stops.specs.Programs.{IsProgram};

use crate::files::files_have_one_stop;
use crate::hierarchies::hierarchies_fail_once;
use crate::methods::methods_have_one_stop;
use av_one_application::{applications_are_one, collection_is_one, libraries_are_one};

/// Two things that come first are one refusal, or both are limits.
pub fn first_stop_is_one()
    ensures { (folders : Folders) (main : Option (List ℕ)) (stop other : AcceptStop) → FirstStop folders main stop → FirstStop folders main other
        → (stop ≡ other) ⊎ (IsLimit stop × IsLimit other) }
{
    applications_are_one();
    libraries_are_one();
    collection_is_one();
    files_have_one_stop();
    hierarchies_fail_once();
    methods_have_one_stop();
}

/// Where a refusal or a passed limit comes first, there is no program.
pub fn stopped_is_no_program()
    ensures { (folders : Folders) (main : Option (List ℕ)) (stop : AcceptStop) (program : Program) → FirstStop folders main stop → IsProgram folders main program → ⊥ }
{
    applications_are_one();
    libraries_are_one();
    collection_is_one();
    files_have_one_stop();
    hierarchies_fail_once();
    methods_have_one_stop();
}

/// So an answer that tells of two folders what they have is the one that comes first in them, where one does.
pub fn first_stops_fit()
    ensures { (folders : Folders) (main : Option (List ℕ)) (stop : AcceptStop) (result : Result Program AcceptStop) → FirstStop folders main stop
        → Tells (IsProgram folders main) (FirstStop folders main) result → Fits stop result }
{
    first_stop_is_one();
    stopped_is_no_program();
}
