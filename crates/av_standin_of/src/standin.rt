use jv_class::ClassFile;
use jv_types::{FramedBody, Name, Seq};
use jv_world::World;

/// A class file of a stand-in.
#[derive(Debug, Drop)]
pub struct StandinFile {
    /// The name of the file: that of the class, and `.class`.
    pub name: Name,
    pub class: ClassFile,
}

/// A stand-in for the library that an application can meet.
#[derive(Drop)]
pub struct Standin {
    /// Its class files, in order of name.
    pub files: Seq<StandinFile>,
    /// The application's classes and those of the stand-in.
    pub world: World,
    /// The methods of the stand-in that have code, in the order of the files.
    pub methods: Seq<FramedBody>,
}
