//! What an application is refused for: each rule and each limit by a definition of its own, the one order of all of
//! them, and the program that is accepted. The functions are laws: each does nothing, and its contract is the law.
#![tactic(auto)]

ghost use Rattle.std.specs.Prelude.{List, ℕ, Option};
ghost use Rattle.jv_types.specs.declared.shapes.Shape.{Shape};
ghost use Rattle.av_program.specs.declared.accept_stop.AcceptStop.{AcceptStop};
ghost use Rattle.av_program.specs.declared.program.Program.{Program};
ghost use Rattle.av_app_files.specs.FileRules.{StopsInFiles};
ghost use Rattle.av_app_files.specs.Folders.{Folders};
ghost use Rattle.av_stops.specs.FirstStops.{FirstStop};
ghost use Rattle.av_stops.specs.LibraryFolders.{IsClassOf, IsStated};
ghost use Rattle.av_stops.specs.Programs.{IsAnalysable, IsCheckable};

/// A program that may be analysed may have its stand-in made.
pub fn analysable_programs_are_checkable()
    ensures { (program : Program) → IsAnalysable program → IsCheckable program }
{}

/// Where the files of an application stop, that comes first, whatever main is asked for.
pub fn files_stop_first()
    ensures { (folders : Folders) (main : Option (List ℕ)) (stop : AcceptStop) → StopsInFiles folders stop → FirstStop folders main stop }
{}

/// What the file of a library class states is stated.
pub fn library_classes_are_stated()
    ensures { (name bytes : List ℕ) (shape : Shape) → IsClassOf name bytes shape → IsStated shape }
{}
