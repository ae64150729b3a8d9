use crate::ids::MethodId;
use crate::label::Label;
use crate::place::Place;

/// Where a call comes from.
#[derive(Clone, Copy, Debug, PartialEq, Eq, PartialOrd, Ord)]
pub enum CallFrom {
    /// The library itself.
    Root,
    /// The instruction of this method at this offset.
    Site { method: MethodId, pc: u16 },
}

/// What may hold in a run of a program.
#[derive(Clone, Copy, Debug, PartialEq, Eq, PartialOrd, Ord)]
pub enum Fact {
    /// The method is entered.
    Reach(MethodId),
    /// The method is called from there.
    Edge(CallFrom, MethodId),
    /// An object of this label stands at this place.
    Pt(Place, Label),
}
