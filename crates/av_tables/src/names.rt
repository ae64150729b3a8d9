ghost use Rattle.std.specs.Prelude.{◌≡◌, ◌↔◌, ℕ, List, Contains, IfOk};
ghost use Rattle.av_collected.specs.Libraries.{IsOfLibrary};
ghost use Rattle.av_tables.specs.Mentions.{AreLibraryNames};

use crate::mentions::mentions;
use crate::read_file::ReadFile;
use crate::sorted::in_order;
use jv_types::{Copied, Name, Shape};
use std::alloc::{AllocError, Global};
use std::collections::BTreeSet;

/// The set of these names. Only memory can be wanting.
fn set_of(alloc: Global, names: &[Name]) -> Result<BTreeSet<Name>, AllocError>
    ensures { IfOk result (λ set. (name : List ℕ) → Contains set.keys name ↔ Contains names.now name) }
{
    let mut set = BTreeSet::new(alloc);
    for name in names {
        set.insert(name.copy()?)?;
    }
    Ok(set)
}

/// Takes the names of these classes out of a set.
fn leave_out(set: &mut BTreeSet<Name>, app: &[Shape])
    ensures { (name : List ℕ) → Contains set.new.keys name ↔ (Contains set.old.keys name × IsOfLibrary app.now name) }
{
    for shape in app {
        set.remove(&shape.name);
    }
}

/// The names that are mentioned and aren't the application's, each once, in rising order. Only memory can be wanting.
pub fn library_names(
    alloc: Global,
    app: &[Shape],
    named: &[Name],
    files: &[ReadFile],
) -> Result<Vec<Name>, AllocError>
    ensures { IfOk result (λ names. AreLibraryNames app.now named.now files.now names.items) }
{
    let names = mentions(alloc, named, files)?;
    let mut set = set_of(alloc, names.as_slice())?;
    leave_out(&mut set, app);
    in_order(alloc, set)
}
