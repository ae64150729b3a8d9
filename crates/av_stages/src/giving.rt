ghost use Rattle.std.specs.Prelude.{◌≡◌, List, map, IfOk};
ghost use Rattle.jv_class.specs.declared.class_file.ClassFile.{ClassFile as ClassFileValue};
ghost use Rattle.av_app_files.specs.FileRules.{AreAllLoaded};
ghost use Rattle.av_app_files.specs.Folders.{Folders};
ghost use Rattle.av_stops.specs.Applications.{IsApplication};
ghost use Rattle.av_given.specs.Givens.{application_of};
ghost use Rattle.av_load.specs.Classes.{AreClasses};
ghost use Rattle.av_stages.specs.Stages.{IsKnown};

use av_given::{Given, given_of};
use av_load::{AppClass, in_name_order};
use jv_class::ClassFile;
use jv_types::{Seq, Shape};
use std::alloc::{AllocError, Global};

/// The classes of an application in order of their names, and what collection is given of them.
#[derive(Drop)]
pub struct AppGiven {
    pub files: Vec<ClassFile>,
    pub given: Given,
}

/// Files, and what each of them declares.
#[derive(Drop)]
struct Parted {
    files: Vec<ClassFile>,
    shapes: Vec<Shape>,
}

/// The files of classes and their shapes. Only memory can be wanting.
fn files_and_shapes(alloc: Global, classes: Vec<AppClass>) -> Result<Parted, AllocError>
    ensures files { IfOk result (λ parts. parts.files.items ≡ map (λ class. class.file) classes.items) }
    ensures shapes { IfOk result (λ parts. parts.shapes.items ≡ map (λ class. class.shape) classes.items) }
{
    let mut parts = Parted {
        files: Vec::new(alloc),
        shapes: Vec::new(alloc),
    };
    for class in classes {
        let AppClass { file, shape } = class;
        parts.files.push(file)?;
        parts.shapes.push(shape)?;
    }
    Ok(parts)
}

/// The classes that were loaded in order of their names, and what collection is given of them. Only memory can be
/// wanting.
pub fn give(alloc: Global, loaded: Vec<AppClass>) -> Result<AppGiven, AllocError>
    requires { AreClasses loaded.items }
    ensures known { IfOk result (λ app. IsKnown app.files.items (application_of app.given)) }
    ensures told { IfOk result (λ app. (folders : Folders) → AreAllLoaded folders (map (λ class. class.file) loaded.items)
        → IsApplication folders app.files.items (application_of app.given)) }
{
    let parts = files_and_shapes(alloc, in_name_order(loaded))?;
    let Parted { files, shapes } = parts;
    let given = given_of(alloc, files.as_slice(), Seq::from_vec(shapes))?;
    Ok(AppGiven { files, given })
}
