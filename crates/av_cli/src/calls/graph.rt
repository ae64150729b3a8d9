ghost use Rattle.std.specs.Prelude.{◌↔◌, ◌≡◌, IsTrue, IfOk};
ghost use Rattle.av_cli.specs.declared.calls.graph.GraphError.TheVariants.{Memory};
ghost use Rattle.av_cli.specs.Calls.FileKinds.{IsClassFile};
ghost use Rattle.av_cli.specs.Calls.Graphs.{IsClassOf, IsGraphOf};

use crate::calls::mains::declares_main;
use calls_form::object_class::ObjectClass;
use calls_form::{FILE_LIMIT, ReadError, class_in_range, one_object_class, read_object_class};
use calls_lines::first::class_lines;
use jv_class::{BadClass, read_class};
use jv_types::Name;
use std::alloc::{AllocError, Global};
use std::collections::BTreeSet;

/// Why bytes have no lines.
#[derive(Clone, Copy, Debug, PartialEq, Eq)]
pub enum GraphError {
    /// Memory is wanting.
    Memory,
    /// The file is longer than a class file may be.
    TooLarge,
    /// The bytes are no class file.
    NotClass,
    /// The bytes are a class file, and aren't of the form.
    OutsideForm,
    /// The class has no public static `main` of its own.
    NoMain,
}

impl From<AllocError> for GraphError {
    ghost from_gives = { λ _ e. e ≡ Memory };

    fn from(_e: AllocError) -> GraphError {
        GraphError::Memory
    }
}

/// Whether the bytes are the text of a class file (JVMS 4.1), of which nothing is kept. Only memory can be
/// wanting.
fn is_class_file(alloc: Global, bytes: &[u8]) -> Result<bool, AllocError>
    ensures { IfOk result (λ is. IsTrue is ↔ IsClassFile bytes.now) }
{
    match read_class(alloc, bytes) {
        Ok(_) => Ok(true),
        Err(BadClass::NotClass) => Ok(false),
        Err(BadClass::Memory) => Err(AllocError),
    }
}

/// The class of this name that the bytes are, which has a main of its own.
fn main_class(alloc: Global, name: &[u8], bytes: &[u8]) -> Result<ObjectClass, GraphError>
    ensures { IsClassOf name.now bytes.now result }
{
    one_object_class();
    if bytes.len() > FILE_LIMIT {
        return Err(GraphError::TooLarge);
    }
    let is_class = is_class_file(alloc, bytes)?;
    if !is_class {
        return Err(GraphError::NotClass);
    }
    let class = match read_object_class(alloc, name, bytes) {
        Ok(class) => class,
        Err(ReadError::Memory) => return Err(GraphError::Memory),
        Err(ReadError::Malformed) => return Err(GraphError::OutsideForm),
    };
    if !declares_main(&class) {
        return Err(GraphError::NoMain);
    }
    Ok(class)
}

/// The lines of the class of this name that the bytes are.
pub fn call_graph(alloc: Global, name: &[u8], bytes: &[u8]) -> Result<BTreeSet<Name>, GraphError>
    ensures { IsGraphOf name.now bytes.now result }
{
    one_object_class();
    class_in_range();
    let class = main_class(alloc, name, bytes)?;
    let lines = class_lines(alloc, &class)?;
    Ok(lines)
}
