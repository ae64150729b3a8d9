//! The references of instructions: whether each resolves and is of the right kind (JVMS 5.4.3, 6.5).

use crate::insns::insn_of;
use av_conditions::{
    first_wrong as first_wrong_insn, is_right_insn, resolved_call, resolved_field,
};
use jv_types::{Body, Insn, Seq};
use jv_world::World;
use std::alloc::Global;
use std::test::Fail;
use tests_shapes::{Asked, field_ref_of, first_wrong, is_class, is_method, method_ref_of};
use tests_text::word;

/// Worlds, each with an instruction, and whether its reference is right.
const RIGHT: &str = "\
# a static field where one is wanted, and an instance field where one is wanted
a/C,C,,+sx:La/T; = getstatic a/C.x:La/T; = right
a/C,C,,+.x:La/T; = getstatic a/C.x:La/T; = wrong
a/C,C,,+sx:La/T; = putstatic a/C.x:La/T; = right
a/C,C,,+.x:La/T; = putstatic a/C.x:La/T; = wrong
a/C,C,,+.x:La/T; = getfield a/C.x:La/T; = right
a/C,C,,+sx:La/T; = getfield a/C.x:La/T; = wrong
a/C,C,,+.x:La/T; = putfield a/C.x:La/T; = right
a/C,C,,+sx:La/T; = putfield a/C.x:La/T; = wrong
a/C,C = getfield a/C.x:La/T; = wrong
a/C,C = getstatic a/Z.x:La/T; = wrong
a/P,C,,-.x:La/T; a/C,C,a/P = getfield a/C.x:La/T; = right
# a static method where one is wanted, and an instance method where one is wanted
a/C,C,,+sm = invokestatic a/C.m = right
a/C,C,,+.m = invokestatic a/C.m = wrong
a/C,C,,+.m = invokevirtual a/C.m = right
a/C,C,,+sm = invokevirtual a/C.m = wrong
a/C,C,,+.m = invokespecial a/C.m = right
a/C,C,,+sm = invokespecial a/C.m = wrong
a/I,I,,+am = invokeinterface a/I.m interface = right
a/I,I,,+sm = invokeinterface a/I.m interface = wrong
a/C,C = invokevirtual a/C.m = wrong
a/C,C = invokestatic a/Z.m = wrong
# a class where one is wanted, and an interface where one is wanted
a/I,I,,+am = invokevirtual a/I.m = wrong
a/I,I,,+am = invokevirtual a/I.m interface = wrong
a/C,C,,+.m = invokeinterface a/C.m interface = wrong
a/I,I,,+am = invokeinterface a/I.m = wrong
a/I,I,,+sm = invokestatic a/I.m interface = right
a/I,I,,+sm = invokestatic a/I.m = wrong
a/C,C,,+sm = invokestatic a/C.m interface = wrong
a/I,I,,+.m = invokespecial a/I.m interface = right
a/I,I,,+.m = invokespecial a/I.m = wrong
a/C,C,,+.m = invokespecial a/C.m interface = wrong
# a method of an array is one of Object, and its class has to be there
a/C,C = invokevirtual [La/C;.toString:()Ljava/lang/String; = right
a/C,C = invokevirtual [La/Z;.toString:()Ljava/lang/String; = wrong
# new makes an object of a class that is neither abstract nor an interface
a/C,C = new a/C = right
a/C,A = new a/C = wrong
a/I,I = new a/I = wrong
a/C,C = new a/Z = wrong
a/C,C = new [La/C; = wrong
# any type that is there will do for the others
a/C,A = anewarray a/C = right
a/C,C = anewarray a/Z = wrong
a/I,I = checkcast a/I = right
a/C,C = checkcast [[La/Z; = wrong
a/C,C = instanceof [I = right
a/C,C = instanceof a/Z = wrong
a/C,C = multianewarray [[La/C; = right
a/C,C = multianewarray [[La/Z; = wrong
a/C,C = ldc a/C = right
a/C,C = ldc a/Z = wrong
# an instruction without a reference is right
a/C,C = nop = right";

/// Instructions.
struct Insns;

impl Asked for Insns {
    fn is_answered(
        &self,
        alloc: Global,
        world: &World,
        asked: &str,
        wanted: &str,
    ) -> Result<bool, Fail> {
        let insn = insn_of(alloc, asked)?;
        Ok(is_right_insn(alloc, world, &insn)? == (wanted == "right"))
    }
}

#[test]
fn tells_right_references(rt: HostRuntime) -> Result<(), Fail> {
    assert_eq!(rt; first_wrong(rt.alloc(), &Insns, RIGHT)?, "");
    Ok(())
}

/// Worlds, each with an instruction at 0 and one at 3, and the least offset of a wrong one, or `none`.
const FIRST: &str = "\
a/C,C,,+sx:La/T; = getstatic a/C.x:La/T;&putstatic a/C.x:La/T; = none
a/C,C,,+sx:La/T; = getstatic a/C.x:La/T;&getfield a/C.x:La/T; = 3
a/C,C,,+sx:La/T; = getfield a/C.x:La/T;&getstatic a/C.x:La/T; = 0
a/C,C,,+sx:La/T; = getfield a/C.x:La/T;&putfield a/C.x:La/T; = 0";

/// The body of an instruction at 0 and one at 3.
fn body_of(alloc: Global, first: Insn, second: Insn) -> Result<Body, Fail> {
    let mut insns = Vec::new(alloc);
    insns.push((0, first))?;
    insns.push((3, second))?;
    Ok(Body {
        max_stack: 2,
        max_locals: 0,
        length: 6,
        insns: Seq::from_vec(insns),
        handlers: Seq::new(alloc),
    })
}

/// The body of two instructions of a text.
fn two_insns(alloc: Global, text: &str) -> Result<Body, Fail> {
    let (first, second) = text.split_once('&').ok_or("two instructions")?;
    let first = insn_of(alloc, first)?;
    body_of(alloc, first, insn_of(alloc, second)?)
}

/// Bodies of two instructions.
struct Bodies;

impl Asked for Bodies {
    fn is_answered(
        &self,
        alloc: Global,
        world: &World,
        asked: &str,
        wanted: &str,
    ) -> Result<bool, Fail> {
        let body = two_insns(alloc, asked)?;
        Ok(first_wrong_insn(alloc, world, &body)? == wanted.parse::<u16>().ok())
    }
}

#[test]
fn finds_the_first_wrong_reference(rt: HostRuntime) -> Result<(), Fail> {
    assert_eq!(rt; first_wrong(rt.alloc(), &Bodies, FIRST)?, "");
    Ok(())
}

/// Worlds, each with a reference, and what it resolves to: a field's class, a method, or `none`.
const RESOLVED: &str = "\
a/P,C,,-.x:La/T; a/C,C,a/P = field a/C.x:La/T; = a/P
a/C,C = field a/C.x:La/T; = none
a/P,C,,-.m a/C,C,a/P = call a/C.m = a/P.m
a/C,C = call a/C.m = none
a/I,I,,+.m = call a/I.m interface = a/I.m
a/I,I,,+.m = call a/I.m = none
a/C,C,,+.m = call a/C.m interface = none";

/// Whether a reference to a field resolves as it must.
fn resolves_field(alloc: Global, world: &World, text: &str, wanted: &str) -> Result<bool, Fail> {
    match resolved_field(alloc, world, &field_ref_of(alloc, text)?)? {
        None => Ok(wanted == "none"),
        Some(field) => Ok(is_class(world, field.class, wanted)),
    }
}

/// References.
struct References;

impl Asked for References {
    fn is_answered(
        &self,
        alloc: Global,
        world: &World,
        asked: &str,
        wanted: &str,
    ) -> Result<bool, Fail> {
        if word(asked, 0) == "field" {
            return resolves_field(alloc, world, word(asked, 1), wanted);
        }
        let r = method_ref_of(alloc, word(asked, 1), word(asked, 2) == "interface")?;
        is_method(alloc, world, resolved_call(alloc, world, &r)?, wanted)
    }
}

#[test]
fn resolves_references(rt: HostRuntime) -> Result<(), Fail> {
    assert_eq!(rt; first_wrong(rt.alloc(), &References, RESOLVED)?, "");
    Ok(())
}
