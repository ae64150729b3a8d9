use jv_class::ClassFile;
use jv_types::Shape;

/// A class of the application: its file as it was read, and what it declares.
#[derive(Debug, Drop)]
pub struct AppClass {
    pub file: ClassFile,
    pub shape: Shape,
}
