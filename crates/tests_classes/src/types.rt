use jv_types::{CopiedIn, Name, Prim, VType};
use std::test::Fail;

#[test]
fn orders_verification_types(rt: HostRuntime) -> Result<(), Fail> {
    let alloc = rt.alloc();
    let item = VType::Class(Name::from_slice(alloc, b"a/B".as_slice())?);
    let list = VType::PrimArray(Prim::Int);
    assert!(rt; VType::Top < VType::Null);
    assert!(rt; item < list);
    assert!(rt; item.copy(alloc)?.is(&item));
    Ok(())
}
