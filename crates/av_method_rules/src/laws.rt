//! Laws of what methods are refused for. Each function does nothing, and its contract is the law.

ghost use Rattle.std.specs.Prelude.{List, Contains};
ghost use Rattle.jv_class.specs.declared.class_file.ClassFile.{ClassFile};
ghost use Rattle.av_collected.specs.declared.collected.Collected.{Collected};
ghost use Rattle.av_collected.specs.Naming.{Application};
ghost use Rattle.av_app_files.specs.Folders.{Folders};
ghost use Rattle.av_stops.specs.Applications.{IsApplication, IsGivenBy};
ghost use Rattle.av_stops.specs.FirstStops.{program_world};
ghost use Rattle.av_stops.specs.Programs.{IsOfFile};
ghost use Rattle.av_method_rules.specs.Files.{AreFilesOf};

/// The world of a program begins with the classes of the application's files, by which collection was given them.
pub fn programs_begin_with_the_application()
    ensures given { (classes : List ClassFile) (given : Application) (found : Collected) → ((class : ClassFile) → Contains classes class → IsOfFile class)
        → IsGivenBy classes given → AreFilesOf (program_world given found) classes }
    ensures application { (folders : Folders) (classes : List ClassFile) (given : Application) (found : Collected) → IsApplication folders classes given
        → AreFilesOf (program_world given found) classes }
{}
