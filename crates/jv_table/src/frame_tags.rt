//! The kinds of frames in a stack map (JVMS 4.7.4). A group of several kinds has its first and last one here.

pub const FIRST_SAME: u8 = 0;

pub const LAST_SAME: u8 = 63;

pub const FIRST_SAME_LOCALS_1_STACK_ITEM: u8 = 64;

pub const LAST_SAME_LOCALS_1_STACK_ITEM: u8 = 127;

pub const SAME_LOCALS_1_STACK_ITEM_EXTENDED: u8 = 247;

pub const FIRST_CHOP: u8 = 248;

pub const LAST_CHOP: u8 = 250;

pub const SAME_EXTENDED: u8 = 251;

pub const FIRST_APPEND: u8 = 252;

pub const LAST_APPEND: u8 = 254;

pub const FULL: u8 = 255;
