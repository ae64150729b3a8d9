use crate::held::Held;
use crate::run_type::RunType;
use jv_types::{FieldId, MethodId, Seq};

/// What a thread does. The first five are steps of the application, on a thread whose last frame is the
/// application's; all others are moves of the library.
#[derive(Debug, PartialEq, Eq, Drop)]
pub enum Choice {
    /// The instruction is done. `branch` counts the places where it goes, the next one first. `index` is that of an
    /// item of an array, or the number of the object that the load of a String or a class gives. A number that the
    /// instruction has no use for is 0.
    Go {
        branch: u16,
        index: u64,
    },
    /// multianewarray is done. For each dimension but the last, how many arrays each array of the dimension holds.
    Multi(Seq<u64>),
    /// The instruction throws a new object of the library of this type.
    Raise(RunType),
    /// The instruction first enters this class initialization method (JVMS 5.5).
    Init(MethodId),
    /// The object that is thrown is caught, or the last frame is left.
    Unwind,
    /// A thread begins.
    Begin,
    /// The start first enters this class initialization method.
    First(MethodId),
    /// main is entered.
    Main,
    /// An object of the library's is made.
    Make(RunType),
    /// An object is copied. Item k of an array's copy is the original's at the k-th of these indices.
    Copy {
        object: u64,
        elements: Seq<u64>,
    },
    /// A method is called, with one value for each parameter. A long or double is one word here.
    Call {
        method: MethodId,
        receiver: u64,
        args: Seq<Held>,
    },
    /// The library's method returns this value, or null where it has no result.
    Return(Held),
    /// The library's method throws this object.
    Throw(u64),
    /// A field is read: of this object, or a static one.
    See {
        object: Option<u64>,
        field: FieldId,
    },
    /// A field is written.
    Set {
        object: Option<u64>,
        field: FieldId,
        value: Held,
    },
    /// An item of an array is read.
    Look {
        array: u64,
        index: u64,
    },
    /// An item of an array is written.
    Put {
        array: u64,
        index: u64,
        value: Held,
    },
}

/// One step of one thread. A thread that begins has the number of the threads before it.
#[derive(Debug, PartialEq, Eq, Drop)]
pub struct Event {
    pub thread: u64,
    pub choice: Choice,
}
