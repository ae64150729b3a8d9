ghost use Rattle.std.specs.Prelude.{◌≡◌, option_map};
ghost use Rattle.std.specs.Option.{option_copied};
ghost use Rattle.calls_form.specs.Classes.{text_at, class_at, pair_at, member_at, pair_view, named_of};

use crate::outline::Entry;
use jv_types::Name;

/// A member that an index of the pool names.
#[derive(Clone, Copy)]
pub struct Member<'a> {
    pub class: &'a Name,
    pub name: &'a Name,
    pub desc: &'a Name,
}

/// The text at an index (JVMS 4.4.7).
#[tactic(auto, unfolding(crate::specs::Classes::text_at))]
pub fn text_at<'a>(pool: &'a [Entry], index: u16) -> Option<&'a Name>
    ensures { option_copied result ≡ text_at pool.now index }
{
    match pool.get(usize::from(index)) {
        Some(Entry::Utf8(text)) => Some(text),
        _ => None,
    }
}

/// The name of the class at an index (JVMS 4.4.1).
#[tactic(auto, unfolding(crate::specs::Classes::class_at))]
pub fn class_at<'a>(pool: &'a [Entry], index: u16) -> Option<&'a Name>
    ensures { option_copied result ≡ class_at pool.now index }
{
    match pool.get(usize::from(index)) {
        Some(Entry::Class(name)) => text_at(pool, *name),
        _ => None,
    }
}

/// The name and the descriptor at an index (JVMS 4.4.6).
#[tactic(auto, unfolding(crate::specs::Classes::pair_at))]
fn pair_at<'a>(pool: &'a [Entry], index: u16) -> Option<(&'a Name, &'a Name)>
    ensures { option_map pair_view result ≡ pair_at pool.now index }
{
    match pool.get(usize::from(index)) {
        Some(Entry::NameAndType(name, desc)) => {
            let name = text_at(pool, *name)?;
            let desc = text_at(pool, *desc)?;
            Some((name, desc))
        }
        _ => None,
    }
}

/// The member of the class at one index with the name and descriptor at another (JVMS 4.4.2).
#[tactic(auto, unfolding(crate::specs::Classes::member_at))]
pub fn member_at<'a>(pool: &'a [Entry], class: u16, pair: u16) -> Option<Member<'a>>
    ensures { option_map named_of result ≡ member_at pool.now class pair }
{
    let class = class_at(pool, class)?;
    let (name, desc) = pair_at(pool, pair)?;
    Some(Member { class, name, desc })
}
