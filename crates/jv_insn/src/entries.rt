ghost use Rattle.std.specs.Prelude.{◌≡◌, false};
ghost use Rattle.jv_types.specs.declared.instruction.Arg.TheVariants as args;
ghost use Rattle.jv_pool.specs.declared.item.PoolItem.TheVariants.{Utf8};
ghost use Rattle.jv_pool.specs.PoolText.{is_hole};
ghost use Rattle.jv_names.specs.Naming.{type_text};
ghost use Rattle.jv_insn.specs.Entries.{member_item, method_kind, const_entry, entry_of, put_item, put_class, put_pair, put_member, put_named, Grows};
ghost use Rattle.jv_insn.specs.Steps.Writing.{Puts};

use crate::fault::EncodeRefusal;
use jv_desc::{show_field, show_method};
use jv_names::type_text;
use jv_pool::{PoolItem, PoolRefusal, PoolWriter};
use jv_types::{Arg, Const, FieldRef, MethodRef, RefType, Seq};
use std::alloc::Global;

/// What a reference to a member is: to a field, or to a method of a class or of an interface (JVMS 4.4.2).
#[derive(Clone, Copy, Debug, PartialEq, Eq)]
pub enum MemberKind {
    Field,
    Method,
    InterfaceMethod,
}

/// The item of a member, by the indices of its class and of its name and descriptor.
fn member_item(kind: MemberKind, class: u16, pair: u16) -> PoolItem
    ensures value { result ≡ member_item kind class pair }
    ensures whole { is_hole result ≡ false }
{
    match kind {
        MemberKind::Field => PoolItem::Field(class, pair),
        MemberKind::Method => PoolItem::Method(class, pair),
        MemberKind::InterfaceMethod => PoolItem::InterfaceMethod(class, pair),
    }
}

/// The kind of a method's item.
fn method_kind(interface: bool) -> MemberKind
    ensures { result ≡ method_kind interface }
{
    if interface {
        MemberKind::InterfaceMethod
    } else {
        MemberKind::Method
    }
}

/// Adds an item to a pool where it doesn't stand yet, and answers its index.
fn add(pool: &mut PoolWriter, item: PoolItem) -> Result<u16, EncodeRefusal>
    requires { is_hole item ≡ false }
    ensures put { Puts result pool.new (put_item item pool.old) }
    ensures grown { Grows pool.old pool.new }
{
    match pool.add(item) {
        Ok(index) => Ok(index),
        Err(PoolRefusal::PoolFull) => Err(EncodeRefusal::PoolFull),
        Err(PoolRefusal::Memory) => Err(EncodeRefusal::Memory),
    }
}

/// Adds a text, and answers its index.
fn add_text(pool: &mut PoolWriter, text: Vec<u8>) -> Result<u16, EncodeRefusal>
    ensures put { Puts result pool.new (put_item (Utf8 text.items) pool.old) }
    ensures grown { Grows pool.old pool.new }
{
    add(pool, PoolItem::Utf8(Seq::from_vec(text)))
}

/// Adds a class by its text, and answers its index (JVMS 4.4.1).
#[tactic(auto, unfolding(crate::specs::Entries::put_class))]
fn add_class(pool: &mut PoolWriter, text: Vec<u8>) -> Result<u16, EncodeRefusal>
    ensures put { Puts result pool.new (put_class text.items pool.old) }
    ensures grown { Grows pool.old pool.new }
{
    let name_index = add_text(pool, text)?;
    add(pool, PoolItem::Class(name_index))
}

/// Adds a name and a descriptor, and answers their index (JVMS 4.4.6).
#[tactic(auto, unfolding(crate::specs::Entries::put_pair))]
fn add_pair(pool: &mut PoolWriter, name: Vec<u8>, desc: Vec<u8>) -> Result<u16, EncodeRefusal>
    ensures put { Puts result pool.new (put_pair name.items desc.items pool.old) }
    ensures grown { Grows pool.old pool.new }
{
    let name_index = add_text(pool, name)?;
    let desc_index = add_text(pool, desc)?;
    add(pool, PoolItem::NameAndType(name_index, desc_index))
}

/// Adds a member, by the text of its class, its name and its descriptor, and answers its index (JVMS 4.4.2).
#[tactic(auto, unfolding(crate::specs::Entries::put_member))]
fn add_member(
    pool: &mut PoolWriter,
    kind: MemberKind,
    class: Vec<u8>,
    name: Vec<u8>,
    desc: Vec<u8>,
) -> Result<u16, EncodeRefusal>
    ensures put { Puts result pool.new (put_member kind class.items name.items desc.items pool.old) }
    ensures grown { Grows pool.old pool.new }
{
    let class_index = add_class(pool, class)?;
    let pair_index = add_pair(pool, name, desc)?;
    add(pool, member_item(kind, class_index, pair_index))
}

/// Adds a class or array type, and answers its index.
fn add_type(alloc: Global, pool: &mut PoolWriter, of: &RefType) -> Result<u16, EncodeRefusal>
    ensures put { Puts result pool.new (put_class (type_text of.now) pool.old) }
    ensures grown { Grows pool.old pool.new }
{
    let text = type_text(alloc, of)?;
    add_class(pool, text)
}

/// Adds a field, and answers its index.
fn add_field(alloc: Global, pool: &mut PoolWriter, field: &FieldRef) -> Result<u16, EncodeRefusal>
    ensures put { Puts result pool.new (put_named (entry_of (args.Field field.now)) pool.old) }
    ensures grown { Grows pool.old pool.new }
{
    let class = Vec::from_slice(alloc, field.class.as_slice())?;
    let name = Vec::from_slice(alloc, field.name.as_slice())?;
    let desc = show_field(alloc, &field.desc)?;
    add_member(pool, MemberKind::Field, class, name, desc)
}

/// Adds a method, and answers its index.
fn add_method(
    alloc: Global,
    pool: &mut PoolWriter,
    method: &MethodRef,
) -> Result<u16, EncodeRefusal>
    ensures put { Puts result pool.new (put_named (entry_of (args.Method method.now)) pool.old) }
    ensures grown { Grows pool.old pool.new }
{
    let class = type_text(alloc, &method.class)?;
    let name = Vec::from_slice(alloc, method.name.as_slice())?;
    let desc = show_method(alloc, &method.desc)?;
    add_member(pool, method_kind(method.interface), class, name, desc)
}

/// Adds a constant, and answers its index, and 0 for one that is left out.
fn add_constant(
    alloc: Global,
    pool: &mut PoolWriter,
    constant: &Const,
) -> Result<u16, EncodeRefusal>
    ensures put { Puts result pool.new (put_named (const_entry constant.now) pool.old) }
    ensures grown { Grows pool.old pool.new }
{
    match constant {
        Const::Int(value) => add(pool, PoolItem::Integer(*value)),
        Const::Float(bits) => add(pool, PoolItem::Float(*bits)),
        Const::Long(value) => add(pool, PoolItem::Long(*value)),
        Const::Double(bits) => add(pool, PoolItem::Double(*bits)),
        Const::Class(of) => add_type(alloc, pool, of),
        Const::Text | Const::Handle | Const::MethodKind => Ok(0),
    }
}

/// Adds what operands name, and answers its index, and 0 where they name nothing.
pub fn index_of(alloc: Global, pool: &mut PoolWriter, arg: &Arg) -> Result<u16, EncodeRefusal>
    ensures put { Puts result pool.new (put_named (entry_of arg.now) pool.old) }
    ensures grown { Grows pool.old pool.new }
{
    match arg {
        Arg::Constant(constant) => add_constant(alloc, pool, constant),
        Arg::Class(of) => add_type(alloc, pool, of),
        Arg::Field(field) => add_field(alloc, pool, field),
        Arg::Method(method) => add_method(alloc, pool, method),
        Arg::Multi(of, _) => add_type(alloc, pool, of),
        Arg::Nothing
        | Arg::Local(_)
        | Arg::Small(_)
        | Arg::Inc(_, _)
        | Arg::Dynamic
        | Arg::NewPrim(_)
        | Arg::Jump(_)
        | Arg::Table { .. }
        | Arg::Lookup { .. } => Ok(0),
    }
}
