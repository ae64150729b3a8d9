ghost use Rattle.std.specs.Prelude.{◌≡◌, ℕ, List, IfOk, Some};
ghost use Rattle.jv_pool.specs.Lookups.{text_at, class_name_at};
ghost use Rattle.av_stops.specs.MethodRules.{IsPlaceOf};
ghost use Rattle.av_method_rules.specs.Files.{HasTexts};
ghost use Rattle.av_method_rules.specs.Stopping.{IsRefusalAt};

use av_program::AcceptStop;
use jv_class::{ClassFile, Member};
use jv_pool::Pool;
use jv_types::{Name, Refusal, Rule, RulePlace};
use std::alloc::{AllocError, Global};

/// The text at an index of the pool, which has one.
fn text_of(alloc: Global, pool: &Pool, index: u16) -> Result<Name, AllocError>
    requires { (text : List ℕ) × (text_at pool.now index ≡ Some text) }
    ensures { IfOk result (λ name. text_at pool.now index ≡ Some name) }
{
    match pool.utf8(index) {
        Some(text) => Name::from_slice(alloc, text),
        None => unreachable!(),
    }
}

/// The name that a class states.
fn class_of(alloc: Global, class: &ClassFile) -> Result<Name, AllocError>
    requires { (text : List ℕ) × (class_name_at class.now.pool class.now.this_class ≡ Some text) }
    ensures { IfOk result (λ name. class_name_at class.now.pool class.now.this_class ≡ Some name) }
{
    match class.pool.class_name(class.this_class) {
        Some(text) => Name::from_slice(alloc, text),
        None => unreachable!(),
    }
}

/// The place of an offset in a method of a class file.
fn place_of(
    alloc: Global,
    class: &ClassFile,
    member: &Member,
    pc: u32,
) -> Result<RulePlace, AllocError>
    requires { HasTexts class.now member.now }
    ensures { IfOk result (IsPlaceOf class.now member.now pc) }
{
    Ok(RulePlace::Method {
        class: class_of(alloc, class)?,
        name: text_of(alloc, &class.pool, member.name)?,
        desc: text_of(alloc, &class.pool, member.desc)?,
        pc,
    })
}

/// The refusal by a rule at an offset in a method, unless memory is wanting to say so.
pub fn refusal_at(
    alloc: Global,
    class: &ClassFile,
    member: &Member,
    rule: Rule,
    pc: u32,
) -> AcceptStop
    requires { HasTexts class.now member.now }
    ensures { IsRefusalAt class.now member.now rule pc result }
{
    match place_of(alloc, class, member, pc) {
        Ok(place) => AcceptStop::Refused(Refusal { rule, place }),
        Err(_) => AcceptStop::Memory,
    }
}
