ghost use Rattle.jv_class.specs.ClassTexts.{AreDistinct};

use crate::files::{bytes_of, names_below, shown_name};
use anyhow::{Result, bail};
use jv_class::{BadClass, ClassFile, read_class, shape};
use jv_host::Host;
use jv_types::{Copied, Name, Shape};
use jv_world::{HierRefusal, World, are_numbered};
use std::alloc::Global;
use std::collections::BTreeSet;

/// A class file that was read: no two of its methods share name and descriptor.
#[derive(Drop)]
pub struct ReadClass {
    pub file: ClassFile,
    ghost distinct: { AreDistinct file.pool file.methods },
}

/// The classes of an application, and the world in which they stand with those of a library. The number of an
/// application class is its place.
#[derive(Drop)]
pub struct Sources {
    pub classes: Vec<ReadClass>,
    pub world: World,
}

/// What was read so far: the classes of the application with their names, and the shapes of all classes.
#[derive(Drop)]
struct Found {
    classes: Vec<ReadClass>,
    names: BTreeSet<Name>,
    shapes: Vec<Shape>,
}

impl Found {
    /// One class more of the application.
    fn add(&mut self, class: ReadClass, shape: Shape) -> Result<()> {
        self.names.insert(shape.name.copy()?)?;
        self.shapes.push(shape)?;
        self.classes.push(class)?;
        Ok(())
    }

    /// One class more of the library, where the application has none of its name.
    fn add_declared(&mut self, shape: Shape) -> Result<()> {
        if !self.names.contains(&shape.name) {
            self.shapes.push(shape)?;
        }
        Ok(())
    }
}

/// The class of a file below a folder, and its shape.
fn class_at<H: Host>(
    alloc: Global,
    host: &mut H,
    folder: &Name,
    name: &Name,
    application: bool,
) -> Result<(ReadClass, Shape)> {
    let bytes = bytes_of(alloc, host, folder, name)?;
    match read_class(alloc, &bytes) {
        Ok(file) => {
            let shape = shape(alloc, &file, application)?;
            Ok((ReadClass { file }, shape))
        }
        Err(BadClass::NotClass) => bail!("no class file: {}", shown_name(alloc, name)?),
        Err(BadClass::Memory) => bail!("out of memory"),
    }
}

/// Adds the class of a file below a folder, which is that of the application or that of the library.
fn add_file<H: Host>(
    alloc: Global,
    host: &mut H,
    folder: &Name,
    name: &Name,
    application: bool,
    found: &mut Found,
) -> Result<()> {
    let (class, shape) = class_at(alloc, host, folder, name, application)?;
    if application {
        found.add(class, shape)
    } else {
        found.add_declared(shape)
    }
}

/// Adds the classes of the files below a folder.
fn add_files<H: Host>(
    alloc: Global,
    host: &mut H,
    folder: &str,
    application: bool,
    found: &mut Found,
) -> Result<()> {
    let folder = Name::from_slice(alloc, folder.as_bytes())?;
    let names = names_below(alloc, host, &folder)?;
    for name in &names {
        add_file(alloc, host, &folder, name, application, found)?;
    }
    Ok(())
}

/// The world of these shapes.
fn world_of(alloc: Global, shapes: Vec<Shape>) -> Result<World> {
    if !are_numbered(alloc, shapes.as_slice())? {
        bail!("two classes of one name");
    }
    match World::build(alloc, shapes) {
        Ok(world) => Ok(world),
        Err(HierRefusal::Missing(name)) => bail!(
            "a supertype that isn't there: {}",
            shown_name(alloc, &name)?
        ),
        Err(HierRefusal::Circular(name)) => bail!(
            "a class above itself: {}",
            shown_name(alloc, &name)?
        ),
        Err(HierRefusal::SuperKind(name)) => bail!(
            "a supertype of the wrong kind, of {}",
            shown_name(alloc, &name)?
        ),
        Err(HierRefusal::Memory) => bail!("out of memory"),
    }
}

/// Reads the class files below the folder of an application, and those below the folder of a library. A class
/// that stands in both counts as one of the application.
pub fn sources_at<H: Host>(
    alloc: Global,
    host: &mut H,
    application: &str,
    library: &str,
) -> Result<Sources> {
    let mut found = Found {
        classes: Vec::new(alloc),
        names: BTreeSet::new(alloc),
        shapes: Vec::new(alloc),
    };
    add_files(alloc, host, application, true, &mut found)?;
    add_files(alloc, host, library, false, &mut found)?;
    Ok(Sources {
        classes: found.classes,
        world: world_of(alloc, found.shapes)?,
    })
}
