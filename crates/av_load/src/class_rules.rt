ghost use Rattle.std.specs.Prelude.{◌↔◌, IsTrue};
ghost use Rattle.av_app_files.specs.FileRules.{HasOtherName, HasReservedName};

use crate::names::{is_file_of, is_reserved};
use jv_class::ClassFile;

/// Whether a class states another name than that after which its file is named.
pub fn has_other_name(class: &ClassFile, file: &[u8]) -> bool
    ensures { IsTrue result ↔ HasOtherName class.now file.now }
{
    match class.pool.class_name(class.this_class) {
        None => true,
        Some(name) => !is_file_of(file, name),
    }
}

/// Whether a class has a name that belongs to the platform or to a stand-in.
pub fn has_reserved_name(class: &ClassFile) -> bool
    ensures { IsTrue result ↔ HasReservedName class.now }
{
    match class.pool.class_name(class.this_class) {
        None => false,
        Some(name) => is_reserved(name),
    }
}
