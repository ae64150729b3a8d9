ghost use Rattle.std.specs.Prelude.{◌≡◌};
ghost use Rattle.measure.specs.Graph.{node_of};

/// A fact of 32 bytes.
#[derive(Clone, Copy, PartialEq, Eq, PartialOrd, Ord)]
pub struct Node {
    pub kind: u64,
    pub method: u64,
    pub place: u64,
    pub number: u32,
}
