ghost use Rattle.std.specs.Prelude.{◌≡◌, IsTrue};
ghost use Rattle.std.specs.Option.{option_copied};
ghost use Rattle.jv_types.specs.Bodies.{rises_from, at_offset};

use jv_types::Frame;

/// The frame of a stack map at an offset, found by halves.
pub fn map_at(maps: &[(u32, Frame)], pc: u16) -> Option<&Frame>
    requires rising { IsTrue (rises_from 0 maps.now) }
    ensures value { option_copied result ≡ at_offset pc maps.now }
{
    match maps.binary_search_by_key(&u32::from(pc), |row| row.0) {
        Ok(place) => Some(&maps[place].1),
        Err(_) => None,
    }
}

/// The frame of a table at an offset, found by halves.
pub fn row_at(rows: &[(u16, Frame)], pc: u16) -> Option<&Frame>
    requires rising { IsTrue (rises_from 0 rows.now) }
    ensures value { option_copied result ≡ at_offset pc rows.now }
{
    match rows.binary_search_by_key(&pc, |row| row.0) {
        Ok(place) => Some(&rows[place].1),
        Err(_) => None,
    }
}
