ghost use Rattle.std.specs.Prelude.{◌≡◌, ◌↔◌, IsTrue, IfSome, IfNone};
ghost use Rattle.jv_table.specs.declared.ops.TheConstants.{ANEWARRAY, NEW};
ghost use Rattle.jv_types.specs.declared.desc.RefType.{Array};
ghost use Rattle.av_rules.specs.declared.flat_type.FlatType.{FlatType as Flat};
ghost use Rattle.av_rules.specs.FlatTypes.{IsFlat};
ghost use Rattle.av_rules.specs.Labels.{IsInner, Makes, MakesOf};
ghost use Rattle.av_rules.specs.Steps.Making.{MakesAt};

use crate::flat_type::{FlatType, flat_of};
use jv_table::ops;
use jv_types::{Arg, FramedBody, Insn, LibBase, RefType};
use jv_world::World;

/// The type of the objects of a class; none of an array.
fn class_made(world: &World, t: &RefType) -> Option<FlatType>
    ensures found { IfSome result (λ made. IsFlat world.now t.now made × (made.dims ≡ 0)) }
    ensures none { IfNone result ((made : Flat) → IsFlat world.now t.now made → ¬ (made.dims ≡ 0)) }
{
    match flat_of(world, t) {
        None => None,
        Some(made) => made.no_array(),
    }
}

/// The type of the arrays of a type.
fn array_made(world: &World, t: &RefType) -> Option<FlatType>
    ensures found { IfSome result (IsFlat world.now (Array t.now)) }
    ensures none { IfNone result ((made : Flat) → ¬ IsFlat world.now (Array t.now) made) }
{
    match flat_of(world, t) {
        None => None,
        Some(inner) => inner.array(),
    }
}

/// Whether an opcode is that of new.
fn is_new(op: u8) -> bool
    ensures { IsTrue result ↔ (op ≡ NEW) }
{
    op == ops::NEW
}

/// Whether an opcode is that of anewarray.
fn is_anewarray(op: u8) -> bool
    ensures { IsTrue result ↔ (op ≡ ANEWARRAY) }
{
    op == ops::ANEWARRAY
}

/// What an instruction with a type as its operand makes: new and anewarray.
fn made_of(world: &World, op: u8, t: &RefType) -> Option<FlatType>
    ensures found { IfSome result (MakesOf world.now op t.now) }
    ensures none { IfNone result ((made : Flat) → ¬ MakesOf world.now op t.now made) }
{
    if is_new(op) {
        return class_made(world, t);
    }
    if is_anewarray(op) {
        return array_made(world, t);
    }
    None
}

/// The type of the arrays that have so many new arrays of a type around.
fn inner_made(world: &World, t: &RefType, depth: u8) -> Option<FlatType>
    ensures found { IfSome result (IsInner world.now t.now depth) }
    ensures none { IfNone result ((made : Flat) → ¬ IsInner world.now t.now depth made) }
{
    match flat_of(world, t) {
        None => None,
        Some(whole) => whole.inside(depth),
    }
}

/// What an instruction makes at a depth: the number of new arrays around, which is 0 but for multianewarray (JVMS
/// 6.5, new, newarray, anewarray and multianewarray). It takes no memory.
fn made_by(world: &World, insn: &Insn, depth: u8) -> Option<FlatType>
    ensures found { IfSome result (Makes world.now insn.now depth) }
    ensures none { IfNone result ((made : Flat) → ¬ Makes world.now insn.now depth made) }
{
    match &insn.arg {
        Arg::Class(t) => {
            if depth == 0 {
                made_of(world, insn.op, t)
            } else {
                None
            }
        }
        Arg::NewPrim(prim) => {
            if depth == 0 && insn.op == ops::NEWARRAY {
                Some(FlatType {
                    base: LibBase::Prim(*prim),
                    dims: 1,
                })
            } else {
                None
            }
        }
        Arg::Multi(t, count) => {
            if depth < *count && insn.op == ops::MULTIANEWARRAY {
                inner_made(world, t, depth)
            } else {
                None
            }
        }
        _ => None,
    }
}

/// What the instruction of a method at an offset makes at a depth. It takes no memory.
pub fn made_at(world: &World, framed: &FramedBody, pc: u16, depth: u8) -> Option<FlatType>
    ensures found { IfSome result (MakesAt world.now framed.now pc depth) }
    ensures none { IfNone result ((made : Flat) → ¬ MakesAt world.now framed.now pc depth made) }
{
    match framed.body.at(pc) {
        None => None,
        Some(insn) => made_by(world, insn, depth),
    }
}
