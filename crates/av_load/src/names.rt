ghost use Rattle.std.specs.Prelude.{◌≡◌, ◌++◌, ◌↔◌, ℕ, List, codes, IsTrue};
ghost use Rattle.av_program.specs.Reads.{file_of, is_module_info};
ghost use Rattle.av_app_files.specs.FileRules.{BeginsWith, HasStandInPart, IsReserved};

/// Whether a file declares a module, in any folder.
pub fn is_module_info(name: &[u8]) -> bool
    ensures { result ≡ is_module_info name.now }
{
    name == b"module-info.class".as_slice() || name.ends_with(b"/module-info.class".as_slice())
}

/// Whether the file is named after the class of this name.
pub fn is_file_of(file: &[u8], class: &[u8]) -> bool
    ensures { IsTrue result ↔ (file_of class.now ≡ file.now) }
{
    match file.strip_suffix(b".class".as_slice()) {
        None => false,
        Some(front) => front == class,
    }
}

/// Whether a name begins so.
fn begins_with(name: &[u8], front: &[u8]) -> bool
    ensures { IsTrue result ↔ BeginsWith name.now front.now }
{
    name.starts_with(front)
}

/// Whether a name has the mark of a stand-in in it, `averroes$`.
fn has_stand_in_part(name: &[u8]) -> bool
    ensures { IsTrue result ↔ HasStandInPart name.now }
{
    for start in 0..name.len() {
        if begins_with(&name[start..], b"averroes$".as_slice()) {
            return true;
        }
    }
    false
}

/// Whether a name belongs to the platform or to a stand-in.
pub fn is_reserved(name: &[u8]) -> bool
    ensures { IsTrue result ↔ IsReserved name.now }
{
    begins_with(name, b"averroes/".as_slice())
        || begins_with(name, b"java/".as_slice())
        || has_stand_in_part(name)
}
