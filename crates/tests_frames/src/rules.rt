//! How each instruction that works on references is typed (JVMS 4.10.1.9).

use jv_types::Prim;
use jv_typing::{RefRule, ref_rule};
use std::test::Fail;

/// The first and the last opcode of a rule.
const RULES: [(u8, u8, RefRule); 44] = [
    (1, 1, RefRule::PushNull),
    (18, 19, RefRule::PushConstant),
    (25, 25, RefRule::Load),
    (42, 45, RefRule::Load),
    (46, 46, RefRule::LoadItem(Prim::Int)),
    (47, 47, RefRule::LoadItem(Prim::Long)),
    (48, 48, RefRule::LoadItem(Prim::Float)),
    (49, 49, RefRule::LoadItem(Prim::Double)),
    (50, 50, RefRule::LoadRef),
    (51, 51, RefRule::LoadSmall),
    (52, 52, RefRule::LoadItem(Prim::Char)),
    (53, 53, RefRule::LoadItem(Prim::Short)),
    (58, 58, RefRule::Store),
    (75, 78, RefRule::Store),
    (79, 79, RefRule::StoreItem(Prim::Int)),
    (80, 80, RefRule::StoreItem(Prim::Long)),
    (81, 81, RefRule::StoreItem(Prim::Float)),
    (82, 82, RefRule::StoreItem(Prim::Double)),
    (83, 83, RefRule::StoreRef),
    (84, 84, RefRule::StoreSmall),
    (85, 85, RefRule::StoreItem(Prim::Char)),
    (86, 86, RefRule::StoreItem(Prim::Short)),
    (87, 95, RefRule::Move),
    (165, 166, RefRule::TakeRefs),
    (172, 176, RefRule::ReturnValue),
    (177, 177, RefRule::ReturnVoid),
    (178, 178, RefRule::GetStatic),
    (179, 179, RefRule::PutStatic),
    (180, 180, RefRule::GetField),
    (181, 181, RefRule::PutField),
    (182, 182, RefRule::InvokeVirtual),
    (183, 183, RefRule::InvokeSpecial),
    (184, 184, RefRule::InvokeStatic),
    (185, 185, RefRule::InvokeInterface),
    (187, 187, RefRule::New),
    (188, 188, RefRule::NewArray),
    (189, 189, RefRule::NewRefArray),
    (190, 190, RefRule::ArrayLength),
    (191, 191, RefRule::Throw),
    (192, 192, RefRule::CheckCast),
    (193, 193, RefRule::InstanceOf),
    (194, 195, RefRule::TakeRefs),
    (197, 197, RefRule::NewMultiArray),
    (198, 199, RefRule::TakeRefs),
];

/// The rule that an opcode has to have.
fn wanted(op: u8) -> Option<RefRule> {
    for (first, last, rule) in RULES {
        if (first..=last).contains(&op) {
            return Some(rule);
        }
    }
    None
}

#[test]
fn each_opcode_has_its_rule(rt: HostRuntime) -> Result<(), Fail> {
    for op in 0..=255u8 {
        assert_eq!(rt; ref_rule(op), wanted(op), "at {op}");
    }
    Ok(())
}
