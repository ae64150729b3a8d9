//! The members that a class itself declares (JVMS 4.5, 4.6).

ghost use Rattle.std.specs.Prelude.{◌<◌, length};

use jv_resolve::{declared_field, declared_method, field_shape, is_static};
use jv_types::{ClassId, FieldRef};
use jv_world::World;
use std::alloc::Global;
use std::test::Fail;
use tests_shapes::{Asked, class_of, field_ref_of, first_wrong, is_method, method_ref_of};
use tests_text::word;

/// Worlds, each with a class and a member by its name and descriptor. Of a method the answer is what is declared, of
/// a field whether it is static.
const DECLARED: &str = "\
a/P,C,,+.m a/C,C,a/P,+.n = method a/C.n = a/C.n
a/P,C,,+.m a/C,C,a/P,+.n = method a/C.m = none
a/C,C,,+.m = method a/C.m:(I)Ljava/lang/Object; = none
a/C,C,,+.x:La/T;,+sy:La/T; = field a/C.x:La/T; = instance
a/C,C,,+.x:La/T;,+sy:La/T; = field a/C.y:La/T; = static
a/C,C,,+.x:La/T; = field a/C.x:La/S; = none
a/P,C,,+.x:La/T; a/C,C,a/P = field a/C.x:La/T; = none";

/// Whether what a class declares under the name and type of a reference is so.
fn is_field(world: &World, c: ClassId, r: &FieldRef, wanted: &str) -> bool
    requires { c.number < length world.now }
{
    match declared_field(world, c, &r.name, &r.desc) {
        None => wanted == "none",
        Some(f) if is_static(field_shape(world, f).flags) => wanted == "static",
        Some(_) => wanted == "instance",
    }
}

/// Whether a field is declared as it must be.
fn declares_field(alloc: Global, world: &World, text: &str, wanted: &str) -> Result<bool, Fail> {
    let (class, _) = text.split_once('.').unwrap_or((text, ""));
    let r = field_ref_of(alloc, text)?;
    Ok(is_field(world, class_of(alloc, world, class)?, &r, wanted))
}

/// Whether a method is declared as it must be.
fn declares_method(alloc: Global, world: &World, text: &str, wanted: &str) -> Result<bool, Fail> {
    let (class, _) = text.split_once('.').unwrap_or((text, ""));
    let r = method_ref_of(alloc, text, false)?;
    let c = class_of(alloc, world, class)?;
    is_method(
        alloc,
        world,
        declared_method(world, c, &r.name, &r.desc),
        wanted,
    )
}

/// Members by their names and descriptors.
struct Declared;

impl Asked for Declared {
    fn is_answered(
        &self,
        alloc: Global,
        world: &World,
        asked: &str,
        wanted: &str,
    ) -> Result<bool, Fail> {
        if word(asked, 0) == "field" {
            return declares_field(alloc, world, word(asked, 1), wanted);
        }
        declares_method(alloc, world, word(asked, 1), wanted)
    }
}

/// Worlds, each with a member, and its place among those that its class declares: the first where there are more.
const PLACES: &str = "\
a/C,C,,+.b,+.a,+.c = method a/C.b = 0
a/C,C,,+.b,+.a,+.c = method a/C.a = 1
a/C,C,,+.b,+.a,+.c = method a/C.c = 2
a/C,C,,+.b,+.a,+.c = method a/C.d = none
a/C,C,,+.m:(I)V,+.m,+sm = method a/C.m = 1
a/C,C,,+.y:La/T;,+.x:La/T;,+.x:La/S; = field a/C.y:La/T; = 0
a/C,C,,+.y:La/T;,+.x:La/T;,+.x:La/S; = field a/C.x:La/T; = 1
a/C,C,,+.y:La/T;,+.x:La/T;,+.x:La/S; = field a/C.x:La/S; = 2
a/C,C,,+.y:La/T;,+.x:La/T; = field a/C.z:La/T; = none";

/// The place of the field of a text.
fn field_place(alloc: Global, world: &World, text: &str) -> Result<Option<u16>, Fail> {
    let (class, _) = text.split_once('.').unwrap_or((text, ""));
    let r = field_ref_of(alloc, text)?;
    Ok(world.field_place(class_of(alloc, world, class)?, &r.name, &r.desc))
}

/// The place of the method of a text.
fn method_place(alloc: Global, world: &World, text: &str) -> Result<Option<u16>, Fail> {
    let (class, _) = text.split_once('.').unwrap_or((text, ""));
    let r = method_ref_of(alloc, text, false)?;
    Ok(world.method_place(class_of(alloc, world, class)?, &r.name, &r.desc))
}

/// Places of members.
struct Places;

impl Asked for Places {
    fn is_answered(
        &self,
        alloc: Global,
        world: &World,
        asked: &str,
        wanted: &str,
    ) -> Result<bool, Fail> {
        let place = if word(asked, 0) == "field" {
            field_place(alloc, world, word(asked, 1))?
        } else {
            method_place(alloc, world, word(asked, 1))?
        };
        Ok(place == wanted.parse::<u16>().ok())
    }
}

#[test]
fn finds_places(rt: HostRuntime) -> Result<(), Fail> {
    assert_eq!(rt; first_wrong(rt.alloc(), &Places, PLACES)?, "");
    Ok(())
}

#[test]
fn finds_declared_members(rt: HostRuntime) -> Result<(), Fail> {
    assert_eq!(rt; first_wrong(rt.alloc(), &Declared, DECLARED)?, "");
    Ok(())
}
