//! Plain values, and what is counted.

use jv_table::pool_tags;
use jv_types::{Name, Quantity, Seq};
use std::alloc::Global;
use std::test::Fail;
use tests_text::hex;

/// Whether a name and a list give up what they were made of.
fn gives_up(alloc: Global) -> Result<bool, Fail> {
    let bytes = hex(alloc, "4142")?;
    let name = Name::from_slice(alloc, bytes.as_slice())?;
    let other = Name::from_slice(name.allocator(), bytes.as_slice())?.into_vec();
    let list = Seq::from_vec(bytes);
    let empty = Seq::<u8>::new(list.allocator());
    Ok(other.as_slice() == list.into_vec().as_slice() && empty.len() == 0 && name.len() == 2)
}

#[test]
fn gives_up_what_it_was_made_of(rt: HostRuntime) -> Result<(), Fail> {
    assert!(rt; gives_up(rt.alloc())?);
    Ok(())
}

#[test]
fn has_limits(rt: HostRuntime) -> Result<(), Fail> {
    assert_eq!(rt; Quantity::FileBytes.limit(), 16_777_216);
    assert_eq!(rt; Quantity::Methods.limit(), 65_535);
    assert_eq!(rt; Quantity::Pool.limit(), 65_534);
    Ok(())
}

#[test]
fn finds_rows_by_keys(rt: HostRuntime) -> Result<(), Fail> {
    let row = pool_tags().find(&7).ok_or("a Class has a row")?;
    assert_eq!(rt; row.parts, [2].as_slice());
    assert!(rt; pool_tags().find(&2).is_none());
    Ok(())
}
