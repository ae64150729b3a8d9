ghost use Rattle.std.specs.Prelude.{◌≡◌, ◌↔◌, not, IsTrue, IfOk, OnOk};
ghost use Rattle.jv_class.specs.ClassTexts.{AreDistinct};
ghost use Rattle.jv_class.specs.Steps.MemberPairs.{number_at, pair_of, has, Adds, HaveTexts};
ghost use Rattle.jv_class.specs.Steps.TextNumbers.{AreNumbers};

use crate::class_file::Member;
use jv_pool::Pool;
use std::alloc::{AllocError, Global};
use std::collections::BTreeSet;

/// The number of the item at an index, and 0 where there is none.
fn number_at(numbers: &[usize], index: u16) -> usize
    ensures { result ≡ number_at numbers.now index }
{
    if index == 0 {
        return 0;
    }
    match numbers.get(usize::from(index) - 1) {
        Some(number) => *number,
        None => 0,
    }
}

/// The numbers of a member's name and descriptor.
fn pair_of(numbers: &[usize], member: &Member) -> (usize, usize)
    ensures { result ≡ pair_of numbers.now member.now }
{
    (
        number_at(numbers, member.name),
        number_at(numbers, member.desc),
    )
}

/// Adds a pair, and says whether it wasn't there.
fn add_pair(pairs: &mut BTreeSet<(usize, usize)>, pair: (usize, usize)) -> Result<bool, AllocError>
    ensures added { IfOk result (λ added. added ≡ not (has pairs.old pair)) }
    ensures has { OnOk result (Adds pairs.old pairs.new pair) }
{
    let added = pairs.insert(pair)?;
    Ok(added)
}

/// Whether no two of the members share name and descriptor, by the numbers of their texts.
pub fn are_distinct(
    alloc: Global,
    _pool: &Pool,
    numbers: &[usize],
    members: &[Member],
) -> Result<bool, AllocError>
    requires numbered { AreNumbers _pool.now numbers.now }
    requires texts { HaveTexts _pool.now members.now }
    ensures { IfOk result (λ distinct. IsTrue distinct ↔ AreDistinct _pool.now members.now) }
{
    let mut pairs = BTreeSet::new(alloc);
    for member in members {
        let added = add_pair(&mut pairs, pair_of(numbers, member))?;
        if !added {
            return Ok(false);
        }
    }
    Ok(true)
}
