use jv_types::{FramedBody, MethodId, Seq};
use jv_world::World;

/// An accepted program: an application with the declarations of what it can meet of a library.
#[derive(Drop)]
pub struct Program {
    /// The classes of the application, and the collected classes of the library with their collected members.
    pub world: World,
    /// The methods of the application that have code, each with its table of frames.
    pub methods: Seq<FramedBody>,
    /// The method with which the program starts, where one was asked for.
    pub main: Option<MethodId>,
    /// The greatest number of dimensions of an array type that is spoken of, at least 1.
    pub dims: u8,
}
