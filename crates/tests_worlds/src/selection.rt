//! Overriding (JVMS 5.4.5) and the methods that calls select (6.5).

use jv_resolve::{overrides, select_interface, select_special, select_virtual};
use jv_types::{ClassId, MethodId};
use jv_world::World;
use std::alloc::Global;
use std::test::Fail;
use tests_shapes::{Asked, class_of, first_wrong, is_method, method_of, method_ref_of};
use tests_text::word;

/// Worlds, each with two methods and whether the first overrides the second.
const OVERRIDING: &str = "\
# a method overrides itself
a/P,C,,-.m a/Q,C = a/P.m a/P.m = true
# and one of a superclass or superinterface with its name and descriptor
a/P,C,,+.m b/Q,C,a/P,+.m = b/Q.m a/P.m = true
a/I,I,,+am a/C,C,,a/I,+.m = a/C.m a/I.m = true
a/P,C,,+.m b/Q,C,a/P,+.m = a/P.m b/Q.m = false
a/P,C,,+.m a/Q,C,,+.m = a/Q.m a/P.m = false
a/P,C,,+.m a/Q,C,a/P,+.m:(I)Ljava/lang/Object; = a/Q.m:(I)Ljava/lang/Object; a/P.m = false
# where neither is private or static
a/P,C,,-.m a/Q,C,a/P,+.m = a/Q.m a/P.m = false
a/P,C,,+.m a/Q,C,a/P,-.m = a/Q.m a/P.m = false
a/P,C,,+sm a/Q,C,a/P,+sm = a/Q.m a/P.m = false
# and the upper one is public, protected, or package-private in the same package
a/P,C,,#.m b/Q,C,a/P,#.m = b/Q.m a/P.m = true
a/P,C,,~.m a/Q,C,a/P,+.m = a/Q.m a/P.m = true
a/P,C,,~.m b/Q,C,a/P,+.m = b/Q.m a/P.m = false
# or through a third method
a/P,C,,~.m a/Q,C,a/P,+.m b/R,C,a/Q,+.m = b/R.m a/P.m = true
a/P,C,,~.m b/Q,C,a/P,+.m b/R,C,b/Q,+.m = b/R.m a/P.m = false";

/// Whether one method overrides another.
struct Overriding;

impl Asked for Overriding {
    fn is_answered(
        &self,
        alloc: Global,
        world: &World,
        asked: &str,
        wanted: &str,
    ) -> Result<bool, Fail> {
        let a = method_of(alloc, world, word(asked, 0))?;
        let b = method_of(alloc, world, word(asked, 1))?;
        Ok(overrides(world, a, b) == (wanted == "true"))
    }
}

#[test]
fn tells_overriding(rt: HostRuntime) -> Result<(), Fail> {
    assert_eq!(rt; first_wrong(rt.alloc(), &Overriding, OVERRIDING)?, "");
    Ok(())
}

/// Worlds, each with a call and what it runs: of a method on an object of a class, or, for `invokespecial`, of
/// a method in a class, by a reference to that method, or by the one that stands behind it.
const SELECTED: &str = "\
# invokevirtual: the nearest declaration, from the class up, that overrides the method
a/P,C,,+.m a/Q,C,a/P,+.m a/C,C,a/Q = virtual a/C a/P.m = a/Q.m
a/I,I,,+am a/P,C,,a/I a/C,C,a/P,+.m = virtual a/C a/I.m = a/C.m
a/P,C,,~.m b/Q,C,a/P,+.m = virtual b/Q a/P.m = a/P.m
a/P,C,,~.m a/Q,C,a/P,+.m b/R,C,a/Q,+.m = virtual b/R a/P.m = b/R.m
a/P,C,,+.m a/C,C,a/P,-.m = virtual a/C a/P.m = a/P.m
a/P,C,,+.m a/C,C,a/P,+sm = virtual a/C a/P.m = a/P.m
a/P,C,,+.m a/C,C,a/P,+am = virtual a/C a/P.m = none
a/I,I,,+.m a/P,C,,+.m a/C,C,a/P,a/I = virtual a/C a/P.m = a/P.m
# then the one maximally specific superinterface method that isn't abstract, if there is one
a/I,I,,+.m a/J,I,,a/I,+.m a/C,C,,a/I,a/J = virtual a/C a/J.m = a/J.m
a/I,I,,+.m a/P,C,,a/I a/C,C,a/P = virtual a/C a/I.m = a/I.m
a/I,I,,+.m a/J,I,,+.m a/C,C,,a/J,a/I = virtual a/C a/J.m = none
a/I,I,,+am a/J,I,,+.m a/C,C,,a/I,a/J = virtual a/C a/J.m = a/J.m
# invokeinterface: by name and descriptor alone
a/I,I,,+.m a/P,C,,+.m a/C,C,a/P,a/I = interface a/C a/I.m = a/P.m
a/I,I,,+.m a/P,C,,+sm a/C,C,a/P,a/I = interface a/C a/I.m = a/I.m
a/I,I,,+.m a/J,I,,a/I,+am a/C,C,,a/J = interface a/C a/I.m = none
a/I,I,,+.m a/J,I,,+.m a/C,C,,a/J,a/I = interface a/C a/I.m = none
a/I,I,,+.m a/P,C,,+.m:(I)Ljava/lang/Object; a/C,C,a/P,a/I = interface a/C a/I.m = a/I.m
library = interface java/util/ArrayList java/util/List.get:(I)Ljava/lang/Object; = java/util/ArrayList.get:(I)Ljava/lang/Object;
# invokespecial: from the direct superclass for a method of a superclass, or else from the named type
library = special lib/Base java/lang/Object.<init> = java/lang/Object.<init>
a/P,C,,+.m a/Q,C,a/P,+.m a/C,C,a/Q,+.m = special a/C a/P.m = a/Q.m
a/P,C,,~.m b/Q,C,a/P,+.m a/C,C,b/Q,+.m = special a/C a/P.m = b/Q.m
a/P,C,,+.m a/Q,C,a/P,+sm a/C,C,a/Q,+.m = special a/C a/P.m = a/P.m
a/P,C,,+.m a/Q,C,a/P,-.m a/C,C,a/Q,+.m = special a/C a/P.m = a/P.m
a/P,C,,+.<init> a/Q,C,a/P,+.<init> a/C,C,a/Q = special a/C a/P.<init> = a/P.<init>
a/C,C,,-.m = special a/C a/C.m = a/C.m
a/P,C,,+am a/C,C,a/P,+.m = special a/C a/P.m = none
# and from an interface: its own method, Object's public one, one of its superinterfaces
a/I,I,,+.m a/C,C,,a/I,+.m = special a/C a/I.m = a/I.m
a/I,I,,+am a/C,C,,a/I,+.m = special a/C a/I.m = none
a/I,I a/C,C,,a/I = special a/C java/lang/Object.toString:()Ljava/lang/String; a/I.toString:()Ljava/lang/String; = java/lang/Object.toString:()Ljava/lang/String;
a/J,I,,+.m a/I,I,,a/J a/C,C,,a/I = special a/C a/J.m a/I.m = a/J.m";

/// The reference of a call: the one behind the method, or one to the method.
fn reference_of(asked: &str) -> &str {
    let behind = word(asked, 3);
    if behind.is_empty() {
        word(asked, 2)
    } else {
        behind
    }
}

/// What an `invokespecial` in a class runs.
fn selected_specially(alloc: Global, world: &World, asked: &str) -> Result<Option<MethodId>, Fail> {
    let r = method_ref_of(alloc, reference_of(asked), false)?;
    let c = class_of(alloc, world, word(asked, 1))?;
    let m = method_of(alloc, world, word(asked, 2))?;
    Ok(select_special(alloc, world, c, &r, m)?)
}

/// What a row's call runs.
fn selected(alloc: Global, world: &World, asked: &str) -> Result<Option<MethodId>, Fail> {
    if word(asked, 0) == "special" {
        return selected_specially(alloc, world, asked);
    }
    let c = class_of(alloc, world, word(asked, 1))?;
    let m = method_of(alloc, world, word(asked, 2))?;
    if word(asked, 0) == "virtual" {
        return Ok(select_virtual(alloc, world, c, m)?);
    }
    Ok(select_interface(alloc, world, c, m)?)
}

/// Calls.
struct Calls;

impl Asked for Calls {
    fn is_answered(
        &self,
        alloc: Global,
        world: &World,
        asked: &str,
        wanted: &str,
    ) -> Result<bool, Fail> {
        let found = selected(alloc, world, asked)?;
        is_method(alloc, world, found, wanted)
    }
}

#[test]
fn selects_methods(rt: HostRuntime) -> Result<(), Fail> {
    assert_eq!(rt; first_wrong(rt.alloc(), &Calls, SELECTED)?, "");
    Ok(())
}
