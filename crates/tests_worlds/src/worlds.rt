//! Worlds of classes: their supertypes, their instances, and what is refused.

ghost use Rattle.std.specs.Prelude.{◌<◌, length, IfOk};

use jv_types::ClassId;
use jv_world::{HierRefusal, World, is_array_super, is_final, is_interface};
use std::alloc::Global;
use std::test::Fail;
use tests_shapes::{Asked, are_classes, build, class_of, first_wrong, name_of, type_of};
use tests_text::{part, three_words, word};

/// Worlds, each with two classes or types, and whether the first is so to the second.
const RELATED: &str = "\
# JLS 4.10.2: a subtype, by superclass and superinterface links; a subclass, by superclass links alone
a/I,I a/J,I,,a/I a/C,C,,a/J = a/C sub a/I = true
a/I,I a/J,I,,a/I a/C,C,,a/J = a/I sub a/C = false
a/I,I a/J,I,,a/I a/C,C,,a/J = a/C sub a/C = true
a/I,I a/C,C,,a/I = a/C subclass a/I = false
a/P,C a/C,C,a/P a/D,C,a/C = a/D subclass a/P = true
a/P,C a/C,C,a/P a/D,C,a/C = a/P subclass a/D = false
a/I,I = a/I subclass java/lang/Object = true
# JVMS 6.5, instanceof
a/I,I a/C,C,,a/I = a/C instance a/I = true
a/I,I a/C,C,,a/I = [La/C; instance [La/I; = true
a/I,I a/C,C,,a/I = [La/C; instance java/lang/Object = true
a/C,C = [I instance java/lang/Cloneable = true
a/C,C = [I instance java/io/Serializable = true
a/C,C = [I instance [I = true
a/I,I a/C,C,,a/I = a/I instance a/C = false
a/I,I a/C,C,,a/I = [La/I; instance [La/C; = false
a/C,C = [I instance a/C = false
a/C,C = [I instance [J = false
a/C,C = [I instance [La/C; = false
# by names, of which each is one of itself
a/I,I a/C,C,,a/I = a/C named a/I = true
a/I,I a/C,C,,a/I = a/I named a/C = false
a/C,C = a/Z named a/Z = true
a/C,C = a/Z named a/C = false
a/C,C = a/C named a/Z = false
# kinds of classes
a/I,I = a/I is interface = true
a/C,C = a/C is interface = false
a/F,F = a/F is final = true
a/C,C = a/C is final = false
a/I,I = a/I names interface = true
a/C,C = a/C names interface = false
a/C,C = a/Z names interface = false
# JLS 4.10.3: what each array is an instance of
a/C,C = java/lang/Object above arrays = true
a/C,C = java/lang/Cloneable above arrays = true
a/C,C = java/io/Serializable above arrays = true
a/C,C = a/C above arrays = false";

/// Two classes.
fn two_classes(
    alloc: Global,
    world: &World,
    first: &str,
    second: &str,
) -> Result<(ClassId, ClassId), Fail>
    ensures first { IfOk result (λ two. two.0.number < length world.now) }
    ensures second { IfOk result (λ two. two.1.number < length world.now) }
{
    let c = class_of(alloc, world, first)?;
    Ok((c, class_of(alloc, world, second)?))
}

/// Whether the first class is a subtype of the second, or a subclass of it.
fn is_below(
    alloc: Global,
    world: &World,
    first: &str,
    relation: &str,
    second: &str,
) -> Result<bool, Fail> {
    let (c, d) = two_classes(alloc, world, first, second)?;
    if relation == "sub" {
        return Ok(world.sub(c, d));
    }
    Ok(world.is_subclass(c, d))
}

/// Whether the first type is an instance of the second.
fn is_instance(alloc: Global, world: &World, first: &str, second: &str) -> Result<bool, Fail> {
    let t = type_of(alloc, first)?;
    Ok(world.is_instance(&t, &type_of(alloc, second)?))
}

/// Whether the class of the first name is a subtype of that of the second.
fn is_named(alloc: Global, world: &World, first: &str, second: &str) -> Result<bool, Fail> {
    let name = name_of(alloc, first)?;
    Ok(world.is_sub_named(&name, &name_of(alloc, second)?))
}

/// Whether a class is an interface, or final.
fn is_of_kind(alloc: Global, world: &World, class: &str, kind: &str) -> Result<bool, Fail> {
    let shape = world.shape(class_of(alloc, world, class)?);
    if kind == "interface" {
        return Ok(is_interface(shape));
    }
    Ok(is_final(shape))
}

/// Relations of two classes or types.
struct Relations;

impl Asked for Relations {
    fn is_answered(
        &self,
        alloc: Global,
        world: &World,
        asked: &str,
        wanted: &str,
    ) -> Result<bool, Fail> {
        let (first, relation, second) = three_words(asked);
        let told = match relation {
            "instance" => is_instance(alloc, world, first, second)?,
            "named" => is_named(alloc, world, first, second)?,
            "is" => is_of_kind(alloc, world, first, second)?,
            "names" => world.is_interface_named(&name_of(alloc, first)?),
            "above" => is_array_super(&name_of(alloc, first)?),
            _ => is_below(alloc, world, first, relation, second)?,
        };
        Ok(told == (wanted == "true"))
    }
}

#[test]
fn tells_relations(rt: HostRuntime) -> Result<(), Fail> {
    assert_eq!(rt; first_wrong(rt.alloc(), &Relations, RELATED)?, "");
    Ok(())
}

/// Worlds, each with a class, whose supertypes are asked, and these: in the order of their numbers, or, of
/// superclasses, from the direct one on.
const LISTED: &str = "\
a/C,C,,a/I,a/J a/J,I,,a/I java/lang/Object,C a/I,I = supers a/C = a/J java/lang/Object a/I
a/C,C,,a/I,a/J a/J,I,,a/I java/lang/Object,C a/I,I = lent a/C = a/J java/lang/Object a/I
a/C,C,,a/I,a/J a/J,I,,a/I java/lang/Object,C a/I,I = superclasses a/C = java/lang/Object
a/C,C,a/P a/P,C java/lang/Object,C = superclasses a/C = a/P java/lang/Object
a/C,C,a/P a/P,C java/lang/Object,C = superclass a/C = a/P
a/I,I java/lang/Object,C = superclass a/I = java/lang/Object
a/C,C = superclass java/lang/Object = none
a/C,C = supers java/lang/Object = none
a/C,C a/D,C = all a/C = java/lang/Object a/C a/D";

/// Whether the superclass of a class has this name, or there is none.
fn is_superclass(world: &World, c: ClassId, wanted: &str) -> bool
    requires { c.number < length world.now }
{
    match world.superclass(c) {
        None => wanted == "none",
        Some(parent) => are_classes(world, [parent].as_slice(), wanted),
    }
}

/// Whether the classes of a world have these names.
fn are_all(world: &World, wanted: &str) -> bool {
    let shapes = world.shapes();
    for (place, name) in wanted.split(' ').enumerate() {
        match shapes.get(place) {
            Some(shape) if shape.name.as_slice() == name.as_bytes() => {}
            _ => return false,
        }
    }
    wanted.split(' ').count() == shapes.len()
}

/// Lists of the supertypes of a class.
struct Listings;

impl Asked for Listings {
    fn is_answered(
        &self,
        alloc: Global,
        world: &World,
        asked: &str,
        wanted: &str,
    ) -> Result<bool, Fail> {
        let c = class_of(alloc, world, word(asked, 1))?;
        Ok(match word(asked, 0) {
            "supers" => are_classes(world, &world.supers(alloc, c)?, wanted),
            "superclasses" => are_classes(world, &world.superclasses(alloc, c)?, wanted),
            "lent" => are_classes(world, world.proper_supers(c), wanted),
            "superclass" => is_superclass(world, c, wanted),
            _ => are_all(world, wanted),
        })
    }
}

#[test]
fn lists_supertypes(rt: HostRuntime) -> Result<(), Fail> {
    assert_eq!(rt; first_wrong(rt.alloc(), &Listings, LISTED)?, "");
    Ok(())
}

#[test]
fn gives_up_its_shapes(rt: HostRuntime) -> Result<(), Fail> {
    let shapes = build(rt.alloc(), "a/C,C")??.into_shapes();
    assert_eq!(rt; shapes.len(), 2);
    Ok(())
}

/// Classes, and why they are no world: the refusal, and the class that it names.
const REFUSED: &str = "\
java/lang/Object,C a/A,C,a/Z = Missing a/Z
java/lang/Object,C a/A,C,b/Z c/C,C,java/lang/Object,a/B = Missing a/B
java/lang/Object,C a/A,C,a/A b/B,C,-,z/Z = Missing z/Z
java/lang/Object,C a/A,C,a/A = Circular a/A
java/lang/Object,C c/C,C,b/B a/A,C,b/B b/B,C,c/C = Circular b/B
java/lang/Object,C a/A,C i/J,I,java/lang/Object,i/I i/I,I,java/lang/Object,i/J = Circular i/I
java/lang/Object,C i/I,I,java/lang/Object a/A,C,i/I = SuperKind a/A
java/lang/Object,C b/B,C,f/F f/F,F,java/lang/Object a/A,C,f/F = SuperKind a/A
java/lang/Object,C a/A,C,- = SuperKind a/A
java/lang/Object,C a/A,C,java/lang/Object,b/B b/B,C,java/lang/Object = SuperKind a/A
java/lang/Object,C b/B,C,java/lang/Object i/I,I,b/B = SuperKind i/I";

/// Whether a refusal is this one, of its name and the class.
fn is_refusal(refusal: &HierRefusal, wanted: &str) -> bool {
    let name = word(wanted, 1).as_bytes();
    match (refusal, word(wanted, 0)) {
        (HierRefusal::Missing(class), "Missing") => class.as_slice() == name,
        (HierRefusal::Circular(class), "Circular") => class.as_slice() == name,
        (HierRefusal::SuperKind(class), "SuperKind") => class.as_slice() == name,
        _ => false,
    }
}

/// Whether the classes of a line are refused as they must be.
fn is_refused(alloc: Global, line: &str) -> Result<bool, Fail> {
    match build(alloc, part(line, 0))? {
        Ok(_) => Ok(false),
        Err(refusal) => Ok(is_refusal(&refusal, part(line, 1))),
    }
}

#[test]
fn refuses_what_is_no_world(rt: HostRuntime) -> Result<(), Fail> {
    for line in REFUSED.lines() {
        assert!(rt; is_refused(rt.alloc(), line)?, "at {line}");
    }
    Ok(())
}
