//! Access to classes and members (JVMS 5.4.4), packages (5.3), and the flags of members (4.6).

ghost use Rattle.std.specs.Prelude.{◌<◌, length};

use jv_resolve::{
    are_in_one_package, is_abstract, is_class_accessible, is_field_accessible,
    is_method_accessible, is_private, is_protected, is_public, is_static, method_shape,
    resolve_field, resolve_method,
};
use jv_types::{Access, ClassId};
use jv_world::World;
use std::alloc::Global;
use std::test::Fail;
use tests_shapes::{Asked, class_of, field_ref_of, first_wrong, method_of, method_ref_of};
use tests_text::{three_words, word};

/// Worlds, each with a class, a class or a member, and whether the second is accessible from the first.
const ACCESSIBLE: &str = "\
# a class: it is public, or of the same package
a/C,C b/D,C = class a/C b/D = true
a/C,C a/D,P = class a/C a/D = true
a/C,C b/D,P = class a/C b/D = false
a/C,C a/b/D,P = class a/C a/b/D = false
# a field and a method, each by a reference to it
a/P,C,,+.x:La/T; b/C,C = field b/C a/P.x:La/T; = true
a/P,C,,~.x:La/T; b/C,C = field b/C a/P.x:La/T; = false
a/P,C,,+.m b/C,C = method b/C a/P.m = true
a/P,C,,~.m b/C,C = method b/C a/P.m = false
a/C,C = method a/C [I.clone:()Ljava/lang/Object; = true
a/C,C = method a/C [I.finalize = false
# packages, by what stands before the last sign between the parts of a name
a/C,C a/D,C = package a/C a/D = true
a/C,C a/b/D,C = package a/C a/b/D = false
C,C D,C = package C D = true";

/// Whether the class of a name is accessible from another.
fn reaches_class(alloc: Global, world: &World, from: ClassId, text: &str) -> Result<bool, Fail>
    requires { from.number < length world.now }
{
    Ok(is_class_accessible(world, from, class_of(alloc, world, text)?))
}

/// Whether the class of a name is of the package of another.
fn is_beside(alloc: Global, world: &World, from: ClassId, text: &str) -> Result<bool, Fail>
    requires { from.number < length world.now }
{
    Ok(are_in_one_package(world, from, class_of(alloc, world, text)?))
}

/// Whether the field to which a reference resolves is accessible.
fn reaches_field(alloc: Global, world: &World, from: ClassId, text: &str) -> Result<bool, Fail>
    requires { from.number < length world.now }
{
    let r = field_ref_of(alloc, text)?;
    let f = resolve_field(alloc, world, &r)?;
    Ok(is_field_accessible(world, from, &r, f))
}

/// Whether the method to which a reference resolves is accessible.
fn reaches_method(alloc: Global, world: &World, from: ClassId, text: &str) -> Result<bool, Fail>
    requires { from.number < length world.now }
{
    let r = method_ref_of(alloc, text, false)?;
    let m = resolve_method(alloc, world, &r)?;
    Ok(is_method_accessible(world, from, &r, m))
}

/// What is accessible from a class.
struct Accesses;

impl Asked for Accesses {
    fn is_answered(
        &self,
        alloc: Global,
        world: &World,
        asked: &str,
        wanted: &str,
    ) -> Result<bool, Fail> {
        let (kind, from, text) = three_words(asked);
        let from = class_of(alloc, world, from)?;
        let told = match kind {
            "class" => reaches_class(alloc, world, from, text)?,
            "package" => is_beside(alloc, world, from, text)?,
            "field" => reaches_field(alloc, world, from, text)?,
            _ => reaches_method(alloc, world, from, text)?,
        };
        Ok(told == (wanted == "true"))
    }
}

#[test]
fn tells_access(rt: HostRuntime) -> Result<(), Fail> {
    assert_eq!(rt; first_wrong(rt.alloc(), &Accesses, ACCESSIBLE)?, "");
    Ok(())
}

/// Worlds, each with a method and its flags: public, protected, private, static and abstract.
const FLAGS: &str = "\
a/C,C,,+.m = a/C.m = public
a/C,C,,#.m = a/C.m = protected
a/C,C,,-.m = a/C.m = private
a/C,C,,~sm = a/C.m = static
a/C,A,,~am = a/C.m = abstract";

/// Whether a member has a flag.
fn has_flag(flags: Access, name: &str) -> bool {
    match name {
        "public" => is_public(flags),
        "protected" => is_protected(flags),
        "private" => is_private(flags),
        "static" => is_static(flags),
        "abstract" => is_abstract(flags),
        _ => false,
    }
}

/// Whether a member has this one of the flags, and no other one.
fn has_one_flag(flags: Access, wanted: &str) -> bool {
    for name in "public protected private static abstract".split(' ') {
        if has_flag(flags, name) != (name == wanted) {
            return false;
        }
    }
    true
}

/// The flags of a method.
struct Flags;

impl Asked for Flags {
    fn is_answered(
        &self,
        alloc: Global,
        world: &World,
        asked: &str,
        wanted: &str,
    ) -> Result<bool, Fail> {
        let m = method_of(alloc, world, word(asked, 0))?;
        Ok(has_one_flag(method_shape(world, m).flags, wanted))
    }
}

#[test]
fn tells_flags(rt: HostRuntime) -> Result<(), Fail> {
    assert_eq!(rt; first_wrong(rt.alloc(), &Flags, FLAGS)?, "");
    Ok(())
}
