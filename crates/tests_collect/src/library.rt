ghost use Rattle.std.specs.Prelude.{IfOk};
ghost use Rattle.av_asked.specs.Read.{IsFitShape};
ghost use Rattle.av_collected.specs.Libraries.{IsLibrary};

use crate::bounds::may_be_of_library;
use av_asked::NameList;
use av_tables::ReadFile;
use jv_types::{Copied, Name, Shape};
use std::alloc::Global;
use std::test::Fail;
use tests_shapes::{name_of, shape_of};

/// Object, where a library names no other one.
const OBJECT: &str = "java/lang/Object,C,,+.<init>,#.finalize";

/// The other five classes that each world has.
pub const CORE: &str = "\
java/lang/Throwable,C java/lang/String,F java/lang/Class,F java/lang/Cloneable,I java/io/Serializable,I";

/// The class that a word stands for.
fn class_text(word: &str) -> &str {
    if word == "object" { OBJECT } else { word }
}

/// The name and the class of a word, which is a class, `object`, or `!` and the name of a malformed file.
fn file_of(alloc: Global, text: &str) -> Result<(Name, Option<Shape>), Fail>
    ensures { IfOk result (λ found. IsFitShape (λ _. Unit {0}) found.0 found.1) }
{
    if let Some(name) = text.strip_prefix('!') {
        return Ok((name_of(alloc, name)?, None));
    }
    let shape = shape_of(alloc, class_text(text))?;
    if !may_be_of_library(&shape) {
        return Err(Fail::from("a class of a library"));
    }
    Ok((shape.name.copy()?, Some(shape)))
}

/// The library of a text: words, each a class, `object`, or `!` and the name of a malformed file.
pub fn library_of(alloc: Global, text: &str) -> Result<Vec<ReadFile>, Fail>
    ensures { IfOk result (λ files. IsLibrary files.items) }
{
    let mut files = Vec::new(alloc);
    let mut names = NameList::new(alloc);
    for word in text.split(' ') {
        let (name, shape) = file_of(alloc, word)?;
        if names.has(&name) {
            return Err(Fail::from("files of different names"));
        }
        names.add(&name)?;
        files.push(ReadFile::new(name, shape))?;
    }
    Ok(files)
}
