ghost use Rattle.std.specs.Prelude.{◌≡◌, IfOk};
ghost use Rattle.av_collected.specs.Libraries.{IsLibrary};
ghost use Rattle.av_tables.specs.Mentions.{AreLibraryNames};
ghost use Rattle.av_tables.specs.Tables.{ArePlaces};
ghost use Rattle.av_tables.specs.Steps.{AreKept, AreSmall, HaveSignatures, known};

use crate::classes::Classes;
use crate::member::Member;
use crate::members::members_of;
use crate::names::library_names;
use crate::places::places_of;
use crate::read_file::ReadFile;
use crate::signature::Signature;
use crate::signatures::signatures_of;
use jv_types::{Name, Seq, Shape};
use std::alloc::{AllocError, Global};

/// The classes of a library by number, and by the number of a signature the instance methods that have it and are
/// not private.
#[derive(Drop)]
pub struct Tables<'a> {
    pub classes: Classes<'a>,
    pub members: Vec<Seq<Member>>,
}

/// The classes of the library that are named by the application or by the files that were read, and what the files
/// say of them. `named` are the classes that the application names. Only memory can be wanting.
pub fn tables_of<'a>(
    alloc: Global,
    app: &[Shape],
    named: &[Name],
    files: &'a [ReadFile],
) -> Result<Tables<'a>, AllocError>
    requires { IsLibrary files.now }
    ensures kept { IfOk result (λ tables. AreKept (known tables.classes) tables.members.items) }
    ensures names { IfOk result (λ tables. AreLibraryNames app.now named.now files.now tables.classes.names.items) }
    ensures places { IfOk result (λ tables. ArePlaces tables.classes.names.items files.now tables.classes.places.items) }
    ensures files { IfOk result (λ tables. tables.classes.files.now ≡ files.now) }
{
    let names = library_names(alloc, app, named, files)?;
    let places = places_of(alloc, names.as_slice(), files)?;
    let signatures = signatures_of(alloc, files)?;
    let classes = Classes {
        files,
        names,
        places,
        signatures,
    };
    let members = members_of(alloc, &classes)?;
    Ok(Tables { classes, members })
}
