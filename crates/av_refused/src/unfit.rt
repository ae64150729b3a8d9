ghost use Rattle.std.specs.Prelude.{◌↔◌, IsTrue};
ghost use Rattle.av_collected.specs.Answers.{IsUnfitFile, IsUnfitName};
ghost use Rattle.av_refused.specs.Firsts.{HasMark};

use av_conditions::is_as_core;
use av_round::ReadFile;

/// How many bytes the name of a library class may have.
const MOST_BYTES: usize = 60000;

/// Whether a name has the mark of a stand-in in it, `averroes$`.
fn has_mark(name: &[u8]) -> bool
    ensures { IsTrue result ↔ HasMark name.now }
{
    for start in 0..name.len() {
        if name[start..].starts_with(b"averroes$".as_slice()) {
            return true;
        }
    }
    false
}

/// Whether no class of a library may have this name.
fn is_unfit_name(name: &[u8]) -> bool
    ensures { IsTrue result ↔ IsUnfitName name.now }
{
    name.starts_with(b"averroes/".as_slice()) || has_mark(name) || name.len() > MOST_BYTES
}

/// Whether a file is malformed, or has an unfit name, or is a class that every world has and isn't as it has to be.
pub fn is_unfit(file: &ReadFile) -> bool
    ensures { IsTrue result ↔ IsUnfitFile file.now }
{
    match file.shape() {
        None => true,
        Some(shape) => is_unfit_name(file.name().as_slice()) || !is_as_core(shape),
    }
}
