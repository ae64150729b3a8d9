ghost use Rattle.std.specs.Prelude.{◌≡◌, IfOk};

use crate::held::Held;
use crate::run_type::RunType;
use jv_types::{Copied, FieldId, Label, MethodId, Seq};
use std::alloc::{AllocError, Global};

/// An equal list of values that are made of numbers. Only memory can be wanting.
fn copy_plain<T: Copy>(alloc: Global, list: &Seq<T>) -> Result<Seq<T>, AllocError>
    ensures { IfOk result (λ made. made ≡ list.now) }
{
    Ok(Seq::from_vec(Vec::from_slice(alloc, list.as_slice())?))
}

/// A part of an object: one of its fields, or an item of an array.
#[derive(Clone, Copy, Debug, PartialEq, Eq, PartialOrd, Ord)]
pub enum CellKey {
    Field(FieldId),
    /// An item by its index.
    Index(u64),
}

/// An object or an array (JVMS 2.4, 2.7).
#[derive(Debug, PartialEq, Eq, Drop)]
pub struct HeapObject {
    /// The type that it was made of.
    pub made: RunType,
    /// Where the application made it, or which of the library's types it has.
    pub label: Label,
    /// What its parts hold, by rising keys. A part without a row holds null or a number.
    pub cells: Seq<(CellKey, Held)>,
}

impl Copied for HeapObject {
    fn copy(&self) -> Result<HeapObject, AllocError> {
        let alloc = self.cells.allocator();
        Ok(HeapObject {
            made: self.made.copy(alloc)?,
            label: self.label,
            cells: copy_plain(alloc, &self.cells)?,
        })
    }
}

/// A method that was entered and is not left yet (JVMS 2.6).
#[derive(Debug, PartialEq, Eq, Drop)]
pub enum Activation {
    /// The library runs, in whichever of its methods.
    Library,
    /// A method of the application is at the instruction at this offset. There is one entry for each word.
    App {
        method: MethodId,
        pc: u16,
        locals: Seq<Held>,
        /// The operand stack, its topmost word last.
        stack: Seq<Held>,
    },
}

impl Copied for Activation {
    fn copy(&self) -> Result<Activation, AllocError> {
        match self {
            Activation::Library => Ok(Activation::Library),
            Activation::App {
                method,
                pc,
                locals,
                stack,
            } => Ok(Activation::App {
                method: *method,
                pc: *pc,
                locals: copy_plain(locals.allocator(), locals)?,
                stack: copy_plain(stack.allocator(), stack)?,
            }),
        }
    }
}

/// A thread: what it entered, the last one last, and the object that it is throwing, where it is.
#[derive(Debug, PartialEq, Eq, Drop)]
pub struct ThreadState {
    pub frames: Seq<Activation>,
    pub thrown: Option<u64>,
}

impl Copied for ThreadState {
    fn copy(&self) -> Result<ThreadState, AllocError> {
        Ok(ThreadState {
            frames: self.frames.copy()?,
            thrown: self.thrown,
        })
    }
}

/// All that a running application and its library hold. An object goes by its number, which is its place in
/// `heap`, and a thread by its place in `threads`.
#[derive(Debug, PartialEq, Eq, Drop)]
pub struct State {
    /// The method that the start enters.
    pub main: MethodId,
    /// How many dimensions the arrays have that are told apart by their labels.
    pub dims: u8,
    /// Whether main was entered.
    pub entered: bool,
    pub heap: Seq<HeapObject>,
    /// What the static fields hold, by rising fields. A field without a row holds null or a number.
    pub statics: Seq<(FieldId, Held)>,
    /// The objects that the library has in its hands, by rising numbers.
    pub known: Seq<u64>,
    /// The objects on which the constructor of `java/lang/Object` was called, by rising numbers. The library may
    /// finalize them (JLS 12.6), and does no more with them until they are known.
    pub fresh: Seq<u64>,
    pub threads: Seq<ThreadState>,
}

impl Copied for State {
    fn copy(&self) -> Result<State, AllocError> {
        let alloc = self.known.allocator();
        Ok(State {
            main: self.main,
            dims: self.dims,
            entered: self.entered,
            heap: self.heap.copy()?,
            statics: copy_plain(alloc, &self.statics)?,
            known: copy_plain(alloc, &self.known)?,
            fresh: copy_plain(alloc, &self.fresh)?,
            threads: self.threads.copy()?,
        })
    }
}
