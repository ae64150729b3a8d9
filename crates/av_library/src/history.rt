/// What a call of a source came to.
#[derive(Clone, Copy, Debug, PartialEq, Eq)]
pub enum Asked {
    /// It was answered without a read.
    Unread,
    /// It was answered from what was read.
    Read,
    /// The host failed.
    Failed,
    /// Memory was wanting, before a read answered.
    Lacking,
    /// Memory was wanting after the read.
    LackingAfter,
}
