/// Why an event leads to no state. The state is then as it was.
#[derive(Clone, Copy, Debug, PartialEq, Eq)]
pub enum StepRefusal {
    /// The event is no move from this state.
    NotAMove,
    /// Memory is wanting.
    Memory,
}
