//! Laws of what two folders have. Each function does nothing, and its contract is the law.

ghost use Rattle.std.specs.Prelude.{◌≡◌, Bool, List};
ghost use Rattle.jv_types.specs.declared.shapes.Shape.{Shape};
ghost use Rattle.jv_class.specs.declared.class_file.ClassFile.{ClassFile};
ghost use Rattle.jv_class.specs.Shapes.{IsShapeOf};
ghost use Rattle.av_collected.specs.Libraries.{LibraryFile};
ghost use Rattle.av_collected.specs.Naming.{Application};
ghost use Rattle.av_app_files.specs.FileRules.{AreAllLoaded};
ghost use Rattle.av_app_files.specs.Folders.{Folders};
ghost use Rattle.av_stops.specs.Applications.{IsApplication};
ghost use Rattle.av_stops.specs.LibraryFolders.{IsLibraryIn};
ghost use Rattle.av_one_application.specs.Same.{IsSameApplication, IsSameLibrary};

use jv_class::laws::classes_have_one_text;
use jv_desc::laws::{fields_have_one_text, methods_have_one_text};

/// A class file declares one shape (JVMS 4.1, 4.5, 4.6).
pub fn classes_have_one_shape()
    ensures { (class : ClassFile) (application : Bool) (one other : Shape) → IsShapeOf class application one → IsShapeOf class application other → one ≡ other }
{
    fields_have_one_text();
    methods_have_one_text();
}

/// Two folders have one application: the files in order of their names are one list of classes, and so are the
/// classes in order of theirs. What is given of them is the same, whatever the order of bodies and of names.
pub fn applications_are_one()
    ensures files { (folders : Folders) (one other : List ClassFile) → AreAllLoaded folders one → AreAllLoaded folders other → one ≡ other }
    ensures classes { (folders : Folders) (classes others : List ClassFile) (given other : Application)
        → IsApplication folders classes given → IsApplication folders others other → classes ≡ others }
    ensures given { (folders : Folders) (classes others : List ClassFile) (given other : Application)
        → IsApplication folders classes given → IsApplication folders others other → IsSameApplication given other }
{
    classes_have_one_text();
    classes_have_one_shape();
}

/// Two folders have one library, whatever the order of its files.
pub fn libraries_are_one()
    ensures { (folders : Folders) (library other : List LibraryFile) → IsLibraryIn folders library → IsLibraryIn folders other → IsSameLibrary library other }
{
    classes_have_one_text();
    classes_have_one_shape();
}
