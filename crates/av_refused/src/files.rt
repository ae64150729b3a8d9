ghost use Rattle.std.specs.Prelude.{◌≡◌, ◌↔◌, Contains, IfNone, IfOk, IfSome, IsTrue, map};
ghost use Rattle.av_collected.specs.Libraries.{HasFile, IsLibrary};
ghost use Rattle.av_asked.specs.Asking.{AreDistinct};
ghost use Rattle.av_refused.specs.Firsts.{Finds, HasNone, HasUnfit, file_name, item_name};

use crate::unfit::is_unfit;
use av_asked::NameList;
use av_round::{ClassItems, ReadFile};
use jv_types::{Copied, Name};
use std::alloc::{AllocError, Global};

/// The names of the files, in their order. Only memory can be wanting.
pub fn names_of_files(alloc: Global, files: &[ReadFile]) -> Result<NameList, AllocError>
    requires { AreDistinct (map file_name files.now) }
    ensures { IfOk result (λ names. names ≡ map file_name files.now) }
{
    let mut names = NameList::new(alloc);
    for file in files {
        names.add(file.name())?;
    }
    Ok(names)
}

/// The file of a class, if it has one.
pub fn file_of<'a>(files: &'a [ReadFile], names: &NameList, name: &Name) -> Option<&'a ReadFile>
    requires { names.now ≡ map file_name files.now }
    ensures found { IfSome result (λ file. Contains files.now file.now × (file.now.name ≡ name.now)) }
    ensures none { IfNone result (¬ HasFile files.now name.now) }
{
    match names.place(name) {
        None => None,
        Some(place) => files.get(place),
    }
}

/// Whether the file of a class is unfit.
fn has_unfit(files: &[ReadFile], names: &NameList, class: &ClassItems) -> bool
    requires names { names.now ≡ map file_name files.now }
    requires library { IsLibrary files.now }
    ensures { IsTrue result ↔ HasUnfit files.now class.now }
{
    match file_of(files, names, &class.name) {
        None => false,
        Some(file) => is_unfit(file),
    }
}

/// The first of the classes whose file is unfit. Only memory can be wanting.
pub fn first_unfit(
    classes: &[ClassItems],
    files: &[ReadFile],
    names: &NameList,
) -> Result<Option<Name>, AllocError>
    requires names { names.now ≡ map file_name files.now }
    requires library { IsLibrary files.now }
    ensures { IfOk result (Finds item_name (HasUnfit files.now) classes.now) }
{
    for class in classes {
        if has_unfit(files, names, class) {
            return Ok(Some(class.name.copy()?));
        }
    }
    Ok(None)
}

/// Whether a class has no file.
fn has_none(files: &[ReadFile], names: &NameList, class: &ClassItems) -> bool
    requires { names.now ≡ map file_name files.now }
    ensures { IsTrue result ↔ HasNone files.now class.now }
{
    match file_of(files, names, &class.name) {
        None => true,
        Some(_) => false,
    }
}

/// The first of the classes that has no file. Only memory can be wanting.
pub fn first_missing(
    classes: &[ClassItems],
    files: &[ReadFile],
    names: &NameList,
) -> Result<Option<Name>, AllocError>
    requires { names.now ≡ map file_name files.now }
    ensures { IfOk result (Finds item_name (HasNone files.now) classes.now) }
{
    for class in classes {
        if has_none(files, names, class) {
            return Ok(Some(class.name.copy()?));
        }
    }
    Ok(None)
}
