//! The tags of verification types in a stack map (JVMS 4.7.4).

pub const TOP: u8 = 0;

pub const INTEGER: u8 = 1;

pub const FLOAT: u8 = 2;

pub const DOUBLE: u8 = 3;

pub const LONG: u8 = 4;

pub const NULL: u8 = 5;

pub const UNINITIALIZED_THIS: u8 = 6;

pub const OBJECT: u8 = 7;

pub const UNINITIALIZED: u8 = 8;
