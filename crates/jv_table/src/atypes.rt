//! The codes of the element types of newarray (JVMS table 6.5.newarray-A).

pub const T_BOOLEAN: u8 = 4;

pub const T_CHAR: u8 = 5;

pub const T_FLOAT: u8 = 6;

pub const T_DOUBLE: u8 = 7;

pub const T_BYTE: u8 = 8;

pub const T_SHORT: u8 = 9;

pub const T_INT: u8 = 10;

pub const T_LONG: u8 = 11;
