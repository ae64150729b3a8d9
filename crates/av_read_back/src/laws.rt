ghost use Rattle.std.specs.Prelude.{◌≡◌, Some};
ghost use Rattle.jv_class.specs.declared.class_file.ClassFile.{ClassFile};
ghost use Rattle.jv_class.specs.ClassTexts.{IsClass, ClassText, class_text};
ghost use Rattle.av_standin_of.specs.Classes.{MadeClass, library_class};
ghost use Rattle.av_standin_of.specs.Files.{class_file};
ghost use Rattle.av_read_back.specs.Fileable.{IsFileable};

/// The file of a class that may be filed is a class (JVMS 4.1), and has a text, in which no count and no length is too
/// great. This does nothing, and its contract is the law.
pub fn files_are_classes()
    ensures form { (made : MadeClass) (file : ClassFile) → IsFileable made → class_file made ≡ Some file → IsClass file }
    ensures text { (made : MadeClass) (file : ClassFile) → IsFileable made → class_file made ≡ Some file → ClassText file (class_text file) }
{}

/// The class averroes/Library of a stand-in may be filed. This does nothing, and its contract is the law.
pub fn library_class_is_fileable()
    ensures { IsFileable library_class }
{}
