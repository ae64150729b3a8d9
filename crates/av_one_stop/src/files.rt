//! Laws of the files of an application. Each function does nothing, and its contract is the law.

ghost use Rattle.std.specs.Prelude.{◌≡◌, List};
ghost use Rattle.jv_class.specs.declared.class_file.ClassFile.{ClassFile};
ghost use Rattle.av_program.specs.declared.accept_stop.AcceptStop.{AcceptStop};
ghost use Rattle.av_app_files.specs.FileRules.{AreAllLoaded, StopsInFiles};
ghost use Rattle.av_app_files.specs.Folders.{Folders};

use jv_class::laws::classes_have_one_text;

/// The files of an application stop in one way at most, and in none where all of them pass.
pub fn files_have_one_stop()
    ensures stop { (folders : Folders) (stop other : AcceptStop) → StopsInFiles folders stop → StopsInFiles folders other → stop ≡ other }
    ensures apart { (folders : Folders) (stop : AcceptStop) (classes : List ClassFile) → StopsInFiles folders stop → AreAllLoaded folders classes → ⊥ }
{
    classes_have_one_text();
}
