ghost use Rattle.std.specs.Prelude.{◌≡◌, map};
ghost use Rattle.std.specs.Option.{option_copied, option_map};
ghost use Rattle.std.specs.Ordering.{nat_cmp};
ghost use Rattle.jv_table.specs.Rows.{row_of};
ghost use Rattle.jv_table.specs.ClassRows.{tag_form, tag_row_form, pool_tag_rows, frame_kind_rows, type_tag_rows};

use crate::table::Table;
use crate::{tags, vtype_tags};

/// The form of a constant pool item (JVMS 4.4).
#[derive(Clone, Copy, Debug)]
pub struct TagRow {
    pub tag: u8,
    /// The widths of the item's numbers in bytes. Of Utf8 this is the width of its length.
    pub parts: &'static [u8],
    /// How many indices the item takes.
    pub slots: u8,
}

/// The kinds of a stack map's frame that have one layout (JVMS 4.7.4).
#[derive(Clone, Copy, Debug, PartialEq, Eq, PartialOrd, Ord)]
pub enum FrameGroup {
    Same,
    SameOne,
    SameOneExtended,
    Chop,
    SameExtended,
    Append,
    Full,
}

/// The layout of a stack map's frame of a kind (JVMS 4.7.4).
#[derive(Clone, Copy, Debug, PartialEq, Eq, PartialOrd, Ord)]
pub struct FrameRow {
    pub kind: u8,
    pub group: FrameGroup,
}

/// The layout of a verification type of a tag (JVMS 4.7.4).
#[derive(Clone, Copy, Debug, PartialEq, Eq, PartialOrd, Ord)]
pub struct TypeRow {
    pub tag: u8,
    /// Whether a number of two bytes follows the tag.
    pub arg: bool,
}

macro_rules! tag_rows {
    ($($tag:ident: $parts:expr, $slots:literal;)*) => {
        [$((tags::$tag, TagRow { tag: tags::$tag, parts: $parts, slots: $slots }),)*]
    };
}

macro_rules! frame_rows {
    ($($group:ident: $($kind:literal)*;)*) => {
        [$($(($kind, FrameRow { kind: $kind, group: FrameGroup::$group }),)*)*]
    };
}

macro_rules! type_rows {
    ($($tag:ident: $arg:literal;)*) => {
        [$((vtype_tags::$tag, TypeRow { tag: vtype_tags::$tag, arg: $arg }),)*]
    };
}

/// The constant pool's tags (JVMS 4.4).
pub fn pool_tags() -> Table<u8, TagRow, 14>
    ensures { map tag_row_form result ≡ pool_tag_rows }
{
    static ROWS: [(u8, TagRow); 14] = tag_rows! {
        UTF8: &[2], 1;
        INTEGER: &[4], 1;
        FLOAT: &[4], 1;
        LONG: &[4, 4], 2;
        DOUBLE: &[4, 4], 2;
        CLASS: &[2], 1;
        STRING: &[2], 1;
        FIELDREF: &[2, 2], 1;
        METHODREF: &[2, 2], 1;
        INTERFACE_METHODREF: &[2, 2], 1;
        NAME_AND_TYPE: &[2, 2], 1;
        METHOD_HANDLE: &[1, 2], 1;
        METHOD_TYPE: &[2], 1;
        INVOKE_DYNAMIC: &[2, 2], 1;
    };
    Table::new(&ROWS)
}

/// The form of a constant pool item of this tag, where there is one.
pub fn pool_tag(tag: u8) -> Option<&'static TagRow>
    ensures { option_map tag_form (option_copied result) ≡ row_of nat_cmp tag pool_tag_rows }
{
    pool_tags().find(&tag)
}

/// The kinds of a stack map's frames (JVMS 4.7.4). Kinds 128 to 246 have no row.
pub fn frame_kinds() -> Table<u8, FrameRow, 137>
    ensures { result ≡ frame_kind_rows }
{
    static ROWS: [(u8, FrameRow); 137] = frame_rows! {
        Same: 0 1 2 3 4 5 6 7 8 9 10 11 12 13 14 15 16 17 18 19 20 21 22 23 24 25 26 27 28 29 30 31 32 33 34 35 36 37 38 39 40 41 42 43 44 45 46 47 48 49 50 51 52 53 54 55 56 57 58 59 60 61 62 63;
        SameOne: 64 65 66 67 68 69 70 71 72 73 74 75 76 77 78 79 80 81 82 83 84 85 86 87 88 89 90 91 92 93 94 95 96 97 98 99 100 101 102 103 104 105 106 107 108 109 110 111 112 113 114 115 116 117 118 119 120 121 122 123 124 125 126 127;
        SameOneExtended: 247;
        Chop: 248 249 250;
        SameExtended: 251;
        Append: 252 253 254;
        Full: 255;
    };
    Table::new(&ROWS)
}

/// The layout of a stack map's frame of this kind, where there is one.
pub fn frame_kind(kind: u8) -> Option<&'static FrameRow>
    ensures { option_copied result ≡ row_of nat_cmp kind frame_kind_rows }
{
    frame_kinds().find(&kind)
}

/// The tags of verification types (JVMS 4.7.4).
pub fn type_tags() -> Table<u8, TypeRow, 9>
    ensures { result ≡ type_tag_rows }
{
    static ROWS: [(u8, TypeRow); 9] = type_rows! {
        TOP: false;
        INTEGER: false;
        FLOAT: false;
        DOUBLE: false;
        LONG: false;
        NULL: false;
        UNINITIALIZED_THIS: false;
        OBJECT: true;
        UNINITIALIZED: true;
    };
    Table::new(&ROWS)
}

/// The layout of a verification type of this tag, where there is one.
pub fn type_tag(tag: u8) -> Option<&'static TypeRow>
    ensures { option_copied result ≡ row_of nat_cmp tag type_tag_rows }
{
    type_tags().find(&tag)
}
