//! Laws of the definitions that the contracts cite. Each function does nothing, and its contract is the law.

ghost use Rattle.std.specs.Prelude.{◌≡◌, List};
ghost use Rattle.jv_class.specs.declared.class_file.ClassFile.{ClassFile};
ghost use Rattle.av_program.specs.declared.accept_stop.AcceptStop.{AcceptStop};
ghost use Rattle.av_app_files.specs.Folders.{Folders};
ghost use Rattle.av_app_files.specs.FileRules.{AreAllLoaded, StopsInFiles};

/// The files of an application stop at one place at most, and nowhere where all of them are loaded. The classes that
/// are loaded are the same each time.
pub fn files_stop_in_one_way()
    ensures one_stop { (folders : Folders) (one other : AcceptStop) → StopsInFiles folders one → StopsInFiles folders other → one ≡ other }
    ensures no_stop { (folders : Folders) (classes : List ClassFile) (stop : AcceptStop) → AreAllLoaded folders classes → ¬ StopsInFiles folders stop }
    ensures one_list { (folders : Folders) (one other : List ClassFile) → AreAllLoaded folders one → AreAllLoaded folders other → one ≡ other }
{}
