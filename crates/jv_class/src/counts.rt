ghost use Rattle.std.specs.Prelude.{◌↔◌, IsTrue};
ghost use Rattle.std.specs.List.{AllByRecursion};
ghost use Rattle.jv_attr.specs.AttrText.{HasFew};
ghost use Rattle.jv_class.specs.ClassTexts.{HasFewItems, IsFewMember, HasFewParts};

use crate::class_file::{ClassFile, Member};
use jv_attr::{Attr, has_few};

/// The greatest number that two bytes hold.
const MOST: usize = 65535;

/// Whether the indices of the pool fit two bytes, and so does their count, which is one more than the last.
pub fn has_few_items(class: &ClassFile) -> bool
    ensures { IsTrue result ↔ HasFewItems class.now }
{
    class.pool.items().len() < MOST
}

/// Whether the counts in each attribute fit two bytes.
fn each_attr_few(attrs: &[Attr]) -> bool
    ensures { IsTrue result ↔ AllByRecursion HasFew attrs.now }
{
    for attr in attrs {
        if !has_few(attr) {
            return false;
        }
    }
    true
}

/// Whether the counts of a member's attributes, and those in them, fit two bytes.
fn is_few_member(member: &Member) -> bool
    ensures { IsTrue result ↔ IsFewMember member.now }
{
    member.attrs.len() <= MOST && each_attr_few(member.attrs.as_slice())
}

/// Whether those of each member do.
fn each_member_few(members: &[Member]) -> bool
    ensures { IsTrue result ↔ AllByRecursion IsFewMember members.now }
{
    for member in members {
        if !is_few_member(member) {
            return false;
        }
    }
    true
}

/// Whether each count of two bytes but that of the pool fits them.
pub fn has_few_parts(class: &ClassFile) -> bool
    ensures { IsTrue result ↔ HasFewParts class.now }
{
    class.interfaces.len() <= MOST
        && class.fields.len() <= MOST
        && class.methods.len() <= MOST
        && class.attrs.len() <= MOST
        && each_member_few(class.fields.as_slice())
        && each_member_few(class.methods.as_slice())
        && each_attr_few(class.attrs.as_slice())
}
