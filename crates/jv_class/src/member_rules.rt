ghost use Rattle.std.specs.Prelude.{◌≡◌, ◌↔◌, ◌&&◌, ◌||◌, false, not, IsTrue, count_by, if◌then◌else◌};
ghost use Rattle.std.specs.List.{AllByRecursion};
ghost use Rattle.jv_class.specs.ClassTexts.{has_flag, is_static, is_native, is_abstract, has_code, IsField, IsMethodMember};
ghost use Rattle.jv_class.specs.Steps.Kinds.{IsOfKind, AreKept};
ghost use Rattle.jv_names.specs.PoolNames.{HasText, HasClassName};
ghost use Rattle.jv_names.specs.Spellings.{IsMethodDescriptor};

use crate::class_file::Member;
use crate::codes::code_count;
use crate::kinds::{Kind, TextKinds};
use crate::texts::{names_class, names_text};
use bitflags::Flags;
use jv_pool::Pool;
use jv_types::Access;

/// Whether a member is static (JVMS table 4.6-A).
fn is_static(member: &Member) -> bool
    ensures { result ≡ is_static member.now }
{
    Access(member.access).contains(Access::STATIC)
}

/// Whether a method is native (JVMS table 4.6-A).
fn is_native(member: &Member) -> bool
    ensures { result ≡ is_native member.now }
{
    Access(member.access).contains(Access::NATIVE)
}

/// Whether a method is abstract (JVMS table 4.6-A).
fn is_abstract(member: &Member) -> bool
    ensures { result ≡ is_abstract member.now }
{
    Access(member.access).contains(Access::ABSTRACT)
}

/// Whether the method has one code, or none where it is native or abstract (JVMS 4.7.3).
fn has_its_code(member: &Member) -> bool
    ensures { IsTrue result ↔ (count_by has_code member.now.attrs ≡
        (if is_native member.now || is_abstract member.now then 0 else 1)) }
{
    let wanted = if is_native(member) || is_abstract(member) {
        0
    } else {
        1
    };
    code_count(member.attrs.as_slice()) == wanted
}

/// Whether the descriptor is that of a method, with a receiver unless the method is static.
fn has_descriptor(pool: &Pool, kept: &[Option<TextKinds>], member: &Member) -> bool
    requires { AreKept pool.now kept.now }
    ensures { IsTrue result ↔ HasText pool.now member.now.desc (IsMethodDescriptor (not (is_static member.now))) }
{
    if is_static(member) {
        names_text(pool, kept, member.desc, Kind::StaticDescriptor)
    } else {
        names_text(pool, kept, member.desc, Kind::InstanceDescriptor)
    }
}

/// Whether the flags of a method go together.
fn has_flags(member: &Member) -> bool
    ensures { IsTrue result ↔ ((is_static member.now && is_abstract member.now) ≡ false) }
{
    !(is_static(member) && is_abstract(member))
}

/// Whether a field keeps the rules (JVMS 4.5).
fn is_field(pool: &Pool, kept: &[Option<TextKinds>], member: &Member) -> bool
    requires { AreKept pool.now kept.now }
    ensures { IsTrue result ↔ IsField pool.now member.now }
{
    names_text(pool, kept, member.name, Kind::FieldName)
        && names_text(pool, kept, member.desc, Kind::FieldDescriptor)
}

/// Whether a method keeps the rules (JVMS 4.6).
fn is_method(pool: &Pool, kept: &[Option<TextKinds>], member: &Member) -> bool
    requires { AreKept pool.now kept.now }
    ensures { IsTrue result ↔ IsMethodMember pool.now member.now }
{
    names_text(pool, kept, member.name, Kind::MethodName)
        && has_descriptor(pool, kept, member)
        && has_flags(member)
        && has_its_code(member)
}

/// Whether each field keeps the rules.
pub fn are_fields(pool: &Pool, kept: &[Option<TextKinds>], members: &[Member]) -> bool
    requires { AreKept pool.now kept.now }
    ensures { IsTrue result ↔ AllByRecursion (IsField pool.now) members.now }
{
    for member in members {
        if !is_field(pool, kept, member) {
            return false;
        }
    }
    true
}

/// Whether each method keeps the rules.
pub fn are_methods(pool: &Pool, kept: &[Option<TextKinds>], members: &[Member]) -> bool
    requires { AreKept pool.now kept.now }
    ensures { IsTrue result ↔ AllByRecursion (IsMethodMember pool.now) members.now }
{
    for member in members {
        if !is_method(pool, kept, member) {
            return false;
        }
    }
    true
}

/// Whether each index names a class, and not an array type.
pub fn are_classes(pool: &Pool, kept: &[Option<TextKinds>], indices: &[u16]) -> bool
    requires { AreKept pool.now kept.now }
    ensures { IsTrue result ↔ AllByRecursion (HasClassName pool.now) indices.now }
{
    for index in indices {
        if !names_class(pool, kept, *index) {
            return false;
        }
    }
    true
}
