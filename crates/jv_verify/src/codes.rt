ghost use Rattle.std.specs.Prelude.{◌≡◌, ◌↔◌, IsTrue, IfOk, IfSome, IfNone, Contains};
ghost use Rattle.jv_class.specs.ClassTexts.{AreDistinct};
ghost use Rattle.jv_class.specs.declared.class_file.Member.{Member as MemberValue};
ghost use Rattle.jv_attr.specs.declared.attr.CodeAttr.{CodeAttr as CodeValue};
ghost use Rattle.jv_resolve.specs.Members.{HasMethod};
ghost use Rattle.jv_verify.specs.Verified.{IsNamedSo, IsCodeOf};

use jv_attr::CodeAttr;
use jv_class::{ClassFile, Member, method_code};
use jv_desc::show_method;
use jv_pool::Pool;
use jv_types::MethodId;
use jv_world::World;
use std::alloc::{AllocError, Global};

/// Whether a member of a class file has this name and descriptor.
fn is_named_so(pool: &Pool, name: &[u8], descriptor: &[u8], member: &Member) -> bool
    ensures { IsTrue result ↔ IsNamedSo pool.now name.now descriptor.now member.now }
{
    match pool.utf8(member.name) {
        None => false,
        Some(own) => match pool.utf8(member.desc) {
            None => false,
            Some(own_descriptor) => own == name && own_descriptor == descriptor,
        },
    }
}

/// The first member with this name and descriptor.
fn member_named<'a>(
    pool: &Pool,
    members: &'a [Member],
    name: &[u8],
    descriptor: &[u8],
) -> Option<&'a Member>
    ensures found { IfSome result (λ member. IsNamedSo pool.now name.now descriptor.now member.now × Contains members.now member.now) }
    ensures none { IfNone result ((member : MemberValue) → Contains members.now member → IsNamedSo pool.now name.now descriptor.now member → ⊥) }
{
    for member in members {
        if is_named_so(pool, name, descriptor, member) {
            return Some(member);
        }
    }
    None
}

/// The member of this name and descriptor, which mostly stands at this place.
fn member_near<'a>(
    pool: &Pool,
    members: &'a [Member],
    place: usize,
    name: &[u8],
    descriptor: &[u8],
) -> Option<&'a Member>
    ensures found { IfSome result (λ member. IsNamedSo pool.now name.now descriptor.now member.now × Contains members.now member.now) }
    ensures none { IfNone result ((member : MemberValue) → Contains members.now member → IsNamedSo pool.now name.now descriptor.now member → ⊥) }
{
    if place < members.len() {
        let member = &members[place];
        if is_named_so(pool, name, descriptor, member) {
            return Some(member);
        }
    }
    member_named(pool, members, name, descriptor)
}

/// The code of a method in its class file, in which no two methods share name and descriptor.
pub fn code_of<'a>(
    alloc: Global,
    world: &World,
    class: &'a ClassFile,
    id: MethodId,
) -> Result<Option<&'a CodeAttr>, AllocError>
    requires method { HasMethod world.now id }
    requires distinct { AreDistinct class.now.pool class.now.methods }
    ensures found { IfOk result (λ o. IfSome o (λ code. IsCodeOf world.now class.now id code.now)) }
    ensures none { IfOk result (λ o. IfNone o ((code : CodeValue) → IsCodeOf world.now class.now id code → ⊥)) }
{
    let method = &world.shape(id.class).methods.as_slice()[usize::from(id.index)];
    let descriptor = show_method(alloc, &method.desc)?;
    let named = member_near(
        &class.pool,
        class.methods.as_slice(),
        usize::from(id.index),
        method.name.as_slice(),
        descriptor.as_slice(),
    );
    match named {
        None => Ok(None),
        Some(member) => Ok(method_code(member)),
    }
}
