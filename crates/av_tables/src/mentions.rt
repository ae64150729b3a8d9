ghost use Rattle.std.specs.Prelude.{◌≡◌, ◌↔◌, ℕ, List, Some, Contains, IfOk, OnOk};
ghost use Rattle.jv_types.specs.declared.shapes.Shape.{Shape as ShapeValue};
ghost use Rattle.av_named.specs.Appending.{Appends, OfEach};
ghost use Rattle.av_named.specs.Named.{ShapeNames};
ghost use Rattle.av_tables.specs.Mentions.{FileNames, IsMentioned};

use crate::read_file::ReadFile;
use av_named::{names_of_shape, push_copies, push_copy};
use jv_types::Name;
use std::alloc::{AllocError, Global};

/// Adds what the class of a file names, where it isn't malformed.
fn mention_shape(file: &ReadFile, out: &mut Vec<Name>) -> Result<(), AllocError>
    ensures { OnOk result (Appends (λ name. (shape : ShapeValue) × (file.now.shape ≡ Some shape) × ShapeNames shape name) out.old.items out.new.items) }
{
    match file.shape() {
        None => Ok(()),
        Some(shape) => names_of_shape(shape, out),
    }
}

/// Adds the name of a file, and what its class names.
fn mention_file(file: &ReadFile, out: &mut Vec<Name>) -> Result<(), AllocError>
    ensures { OnOk result (Appends (FileNames file.now) out.old.items out.new.items) }
{
    push_copy(file.name(), out)?;
    mention_shape(file, out)
}

/// Adds the names of files, and what their classes name.
fn mention_files(files: &[ReadFile], out: &mut Vec<Name>) -> Result<(), AllocError>
    ensures { OnOk result (Appends (OfEach FileNames files.now) out.old.items out.new.items) }
{
    for file in files {
        mention_file(file, out)?;
    }
    Ok(())
}

/// These names, the names of the files, and what their classes name. Only memory can be wanting.
pub fn mentions(alloc: Global, named: &[Name], files: &[ReadFile]) -> Result<Vec<Name>, AllocError>
    ensures { IfOk result (λ names. (name : List ℕ) → Contains names.items name ↔ IsMentioned named.now files.now name) }
{
    let mut names = Vec::new(alloc);
    push_copies(named, &mut names)?;
    mention_files(files, &mut names)?;
    Ok(names)
}
