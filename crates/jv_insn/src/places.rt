ghost use Rattle.std.specs.Prelude.{◌≡◌, is_some};
ghost use Rattle.std.specs.List.{AllZip};
ghost use Rattle.jv_types.specs.Bodies.{at_offset};
ghost use Rattle.jv_insn.specs.Meanings.{LeadsTo, LeadsCase};
ghost use Rattle.jv_insn.specs.Steps.Rows.{AreRows};
ghost use Rattle.jv_names.specs.Finding.{Finds};
ghost use Rattle.jv_insn.specs.Steps.Finding.{FindsSome};

use crate::written::Written;
use jv_read::ReadFault;
use jv_types::Seq;
use std::alloc::Global;

/// Whether an instruction starts at an offset, found by halves.
pub fn is_start(rows: &[(u16, Written)], pc: u16) -> bool
    requires { AreRows rows.now }
    ensures { result ≡ is_some (at_offset pc rows.now) }
{
    match rows.binary_search_by_key(&pc, |row| row.0) {
        Ok(_) => true,
        Err(_) => false,
    }
}

/// Where an offset from an instruction leads, if an instruction starts there.
pub fn target_at(rows: &[(u16, Written)], pc: u16, offset: i32) -> Option<u16>
    requires { AreRows rows.now }
    ensures { FindsSome (λ target. LeadsTo rows.now pc offset target) result }
{
    let target = i64::from(pc) + i64::from(offset);
    if target < 0 || target > 65535 {
        return None;
    }
    let target = target as u16;
    if is_start(rows, target) {
        Some(target)
    } else {
        None
    }
}

/// Where offsets from an instruction lead.
pub fn targets_at(
    alloc: Global,
    rows: &[(u16, Written)],
    pc: u16,
    offsets: &[i32],
) -> Result<Seq<u16>, ReadFault>
    requires { AreRows rows.now }
    ensures { Finds (λ targets. AllZip (LeadsTo rows.now pc) offsets.now targets) result }
{
    let mut targets = Vec::new(alloc);
    for offset in offsets {
        match target_at(rows, pc, *offset) {
            Some(target) => targets.push(target)?,
            None => return Err(ReadFault::Bad),
        }
    }
    Ok(Seq::from_vec(targets))
}

/// Where the cases of a lookupswitch lead.
pub fn cases_at(
    alloc: Global,
    rows: &[(u16, Written)],
    pc: u16,
    cases: &[(i32, i32)],
) -> Result<Seq<(i32, u16)>, ReadFault>
    requires { AreRows rows.now }
    ensures { Finds (λ targets. AllZip (LeadsCase rows.now pc) cases.now targets) result }
{
    let mut targets = Vec::new(alloc);
    for case in cases {
        match target_at(rows, pc, case.1) {
            Some(target) => targets.push((case.0, target))?,
            None => return Err(ReadFault::Bad),
        }
    }
    Ok(Seq::from_vec(targets))
}
