ghost use Rattle.jv_class.specs.Steps.LayoutReading.{member_at, members_at};
ghost use Rattle.jv_read.specs.Reading.{Gives};

use crate::attributes::read_attrs;
use crate::class_file::Member;
use jv_attr::Owner;
use jv_bytes::Cursor;
use jv_pool::Pool;
use jv_read::{Part, ReadFault, read_counted, read_u2};
use jv_types::Seq;
use std::alloc::Global;

/// A field (JVMS 4.5) or a method (JVMS 4.6).
#[tactic(auto, unfolding(crate::specs::Steps::LayoutReading::member_at))]
fn read_member(
    alloc: Global,
    cursor: &mut Cursor,
    pool: &Pool,
    owner: Owner,
    major: u16,
) -> Result<Member, ReadFault>
    ensures { Gives (λ x. x) result cursor.new (member_at pool.now owner major cursor.old) }
{
    let access = read_u2(cursor)?;
    let name = read_u2(cursor)?;
    let desc = read_u2(cursor)?;
    let attrs = read_attrs(alloc, cursor, pool, owner, major)?;
    Ok(Member {
        access,
        name,
        desc,
        attrs,
    })
}

/// Fields or methods, read one by one.
#[derive(Clone, Copy)]
struct MemberPart<'p> {
    alloc: Global,
    pool: &'p Pool,
    owner: Owner,
    major: u16,
}

impl Part for MemberPart<'_> {
    type Item = Member;

    ghost part_at = { λ p bytes. member_at p.pool.now p.owner p.major bytes };

    fn read(&self, cursor: &mut Cursor) -> Result<Member, ReadFault> {
        read_member(self.alloc, cursor, self.pool, self.owner, self.major)
    }
}

/// A count, and as many fields or methods (JVMS 4.1).
pub fn read_members(
    alloc: Global,
    cursor: &mut Cursor,
    pool: &Pool,
    owner: Owner,
    major: u16,
) -> Result<Seq<Member>, ReadFault>
    ensures { Gives (λ x. x) result cursor.new (members_at pool.now owner major cursor.old) }
{
    let part = MemberPart {
        alloc,
        pool,
        owner,
        major,
    };
    let members = read_counted(alloc, cursor, &part)?;
    Ok(Seq::from_vec(members))
}
