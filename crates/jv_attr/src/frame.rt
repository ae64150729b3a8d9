use jv_types::Seq;

/// A verification type of a stack map as it is written (JVMS 4.7.4): its tag, and the number behind it,
/// which is 0 where none is written.
#[derive(Clone, Copy, Debug, PartialEq, Eq, PartialOrd, Ord)]
pub struct MapType {
    pub tag: u8,
    pub arg: u16,
}

/// A frame of a stack map as it is written (JVMS 4.7.4). What its kind doesn't write is 0 or empty.
#[derive(Debug, PartialEq, Eq, PartialOrd, Ord, Drop)]
pub struct MapFrame {
    pub kind: u8,
    /// The offset that is written. That of a kind below 128 isn't.
    pub delta: u16,
    pub locals: Seq<MapType>,
    pub stack: Seq<MapType>,
}
