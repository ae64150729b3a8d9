//! Resolution of methods (JVMS 5.4.3.3, 5.4.3.4) and access to them (5.4.4).

use jv_resolve::{
    ResolveRefusal, interface_method, method, resolve_interface_method, resolve_method,
};
use jv_types::{MethodId, MethodRef};
use jv_world::World;
use std::alloc::Global;
use std::test::Fail;
use tests_shapes::{Asked, class_of, first_wrong, is_method, method_ref_of};
use tests_text::three_words;

/// The refusal of a name.
pub fn refusal_of(name: &str) -> Option<ResolveRefusal> {
    match name {
        "WrongKind" => Some(ResolveRefusal::WrongKind),
        "NotFound" => Some(ResolveRefusal::NotFound),
        "NoAccess" => Some(ResolveRefusal::NoAccess),
        _ => None,
    }
}

/// Worlds, each with a class, or `any` where access isn't asked, a reference to a method of a class or an
/// interface, and what is found.
const METHODS: &str = "\
# JVMS 5.4.3.3: the class of the reference comes first, and it may not be an interface
a/C,C = a/C class a/Z.m = NotFound
a/I,I,,+am a/C,C,,a/I,+.m = a/C class a/I.m = WrongKind
# the class itself, and then its superclasses, by name and descriptor
a/P,C,,+.m a/C,C,a/P,+.m = a/C class a/C.m = a/C.m
a/I,I,,+.m a/P,C,,+.m a/C,C,a/P,a/I = a/C class a/C.m = a/P.m
a/I,I,,+.m a/P,C,,+am a/C,C,a/P,a/I = a/C class a/C.m = a/P.m
a/P,C,,+.m:(I)Ljava/lang/Object; a/C,C,a/P,+.n = a/C class a/C.m = NotFound
# no method is found by its name alone, a signature polymorphic one neither
java/lang/invoke/MethodHandle,F,,+finvoke:([Ljava/lang/Object;)Ljava/lang/Object; a/C,C = a/C class java/lang/invoke/MethodHandle.invoke:(I)Ljava/lang/Object; = NotFound
# then the one maximally specific superinterface method that isn't abstract, if there is one
a/I,I,,+.m a/J,I,,a/I,+.m a/C,C,,a/I,a/J = a/C class a/C.m = a/J.m
a/I,I,,+am a/J,I,,+.m a/C,C,,a/I,a/J = a/C class a/C.m = a/J.m
a/I,I,,+am a/K,I,,+.m a/J,I,,a/K a/P,C,,a/J a/C,C,a/P,a/I = a/C class a/C.m = a/K.m
a/I,I,,+sm a/J,I,,-.m a/K,I,,+.m a/C,C,,a/I,a/J,a/K = a/C class a/C.m = a/K.m
# then any superinterface method that is neither private nor static: the first one depth first
a/I,I,,+.m a/J,I,,+.m a/C,C,,a/J,a/I = a/C class a/C.m = a/J.m
a/I,I,,+am a/J,I,,+am a/C,C,,a/J,a/I = a/C class a/C.m = a/J.m
a/I,I,,+.m a/J,I,,a/I,+am a/C,C,,a/I,a/J = a/C class a/C.m = a/I.m
a/K,I,,+.m a/I,I,,+.m a/J,I,,a/K a/C,C,,a/J,a/I = a/C class a/C.m = a/K.m
a/I,I,,+am a/J,I,,+am a/P,C,,a/I a/C,C,a/P,a/J = a/C class a/C.m = a/J.m
# otherwise nothing is found
a/I,I,,+sm a/C,C,,a/I = a/C class a/C.m = NotFound
a/I,I,,-.m a/C,C,,a/I = a/C class a/C.m = NotFound
# <init> is found in the named class alone
a/P,C,,+.<init> a/C,C,a/P = a/C class a/C.<init> = NotFound
a/P,C,,+.<init> a/C,C,a/P = a/C class a/P.<init> = a/P.<init>
a/C,C = a/C class [I.<init> = NotFound
# what is found has to be accessible (5.4.4): public, private, package-private
a/P,C,,+.m b/C,C = b/C class a/P.m = a/P.m
a/P,C,,-.m a/C,C = a/P class a/P.m = a/P.m
a/P,C,,-.m a/C,C = a/C class a/P.m = NoAccess
a/P,C,,~.m a/C,C = a/C class a/P.m = a/P.m
a/P,C,,~.m b/C,C,a/P = b/C class a/P.m = NoAccess
# protected: in the package, or in a subclass by the name of a class in line with it
a/P,C,,#.m a/C,C = a/C class a/P.m = a/P.m
a/P,C,,#.m b/C,C = b/C class a/P.m = NoAccess
a/P,C,,#.m b/C,C,a/P = b/C class b/C.m = a/P.m
a/P,C,,#.m b/C,C,a/P = b/C class a/P.m = a/P.m
a/P,C,,#.m b/C,C,a/P b/D,C,b/C = b/C class b/D.m = a/P.m
a/P,C,,#.m b/C,C,a/P b/D,C,a/P = b/C class b/D.m = NoAccess
a/P,C,,#sm b/C,C,a/P b/D,C,a/P = b/C class b/D.m = a/P.m
# an interface is in line with no class, so its default method has no access to the clone of a class
a/J,I,,+.m a/C,C,,a/J = a/J class a/C.clone:()Ljava/lang/Object; = NoAccess
a/J,I,,+.m a/C,C,,a/J = a/C class a/C.clone:()Ljava/lang/Object; = java/lang/Object.clone:()Ljava/lang/Object;
a/J,I,,+.m a/C,C,,a/J a/D,C,a/C = a/D class a/C.clone:()Ljava/lang/Object; = java/lang/Object.clone:()Ljava/lang/Object;
a/C,C a/D,C = a/D class a/C.clone:()Ljava/lang/Object; = NoAccess
# arrays
a/C,C = a/C class [I.toString:()Ljava/lang/String; = java/lang/Object.toString:()Ljava/lang/String;
a/C,C = a/C class [I.clone:()Ljava/lang/Object; = java/lang/Object.clone:()Ljava/lang/Object;
a/C,C = a/C class [I.finalize = NoAccess
# JVMS 5.4.3.4: the type of the reference has to be an interface
a/I,I,,+am a/C,C,,a/I,+.m = a/C interface a/C.m = WrongKind
a/C,C = a/C interface a/Z.m = WrongKind
a/C,C = a/C interface [I.toString:()Ljava/lang/String; = WrongKind
# its own methods, and then Object's that are public and not static
a/I,I,,+am,+.toString:()Ljava/lang/String; = a/I interface a/I.toString:()Ljava/lang/String; = a/I.toString:()Ljava/lang/String;
a/J,I,,+.toString:()Ljava/lang/String; a/I,I,,a/J = a/I interface a/I.toString:()Ljava/lang/String; = java/lang/Object.toString:()Ljava/lang/String;
a/I,I = a/I interface a/I.finalize = NotFound
java/lang/Object,C,,+sm a/I,I = a/I interface a/I.m = NotFound
# then the one maximally specific superinterface method that isn't abstract, if there is one
a/J,I,,+am a/K,I,,+.m a/I,I,,a/J,a/K = a/I interface a/I.m = a/K.m
# then the first superinterface method that is neither private nor static
a/J,I,,+am a/I,I,,a/J = a/I interface a/I.m = a/J.m
a/J,I,,+.m a/K,I,,+.m a/I,I,,a/J,a/K = a/I interface a/I.m = a/J.m
a/J,I,,+sm a/I,I,,a/J = a/I interface a/I.m = NotFound
# and it has to be accessible
a/I,I,,-.m a/C,C = a/C interface a/I.m = NoAccess
library = lib/Base interface java/util/List.get:(I)Ljava/lang/Object; = java/util/List.get:(I)Ljava/lang/Object;
# resolution alone asks for no access
a/P,C,,-.m a/C,C = any class a/P.m = a/P.m
a/I,I,,-.m a/C,C = any interface a/I.m = a/I.m
a/I,I,,+.m a/C,C = any class a/I.m = WrongKind
a/C,C,,+.m = any interface a/C.m = WrongKind
a/C,C = any class a/C.m = NotFound";

/// What a reference finds, where access isn't asked.
fn resolved(alloc: Global, world: &World, r: &MethodRef) -> Result<MethodId, ResolveRefusal> {
    if r.interface {
        return resolve_interface_method(alloc, world, r);
    }
    resolve_method(alloc, world, r)
}

/// What the class of a name finds by its reference.
fn found_from(
    alloc: Global,
    world: &World,
    from: &str,
    r: &MethodRef,
) -> Result<Result<MethodId, ResolveRefusal>, Fail> {
    let from = class_of(alloc, world, from)?;
    if r.interface {
        return Ok(interface_method(alloc, world, from, r));
    }
    Ok(method(alloc, world, from, r))
}

/// What a row's reference finds.
fn found_by(
    alloc: Global,
    world: &World,
    asked: &str,
) -> Result<Result<MethodId, ResolveRefusal>, Fail> {
    let (from, kind, text) = three_words(asked);
    let r = method_ref_of(alloc, text, kind == "interface")?;
    if from == "any" {
        return Ok(resolved(alloc, world, &r));
    }
    found_from(alloc, world, from, &r)
}

/// References to methods.
struct Methods;

impl Asked for Methods {
    fn is_answered(
        &self,
        alloc: Global,
        world: &World,
        asked: &str,
        wanted: &str,
    ) -> Result<bool, Fail> {
        match found_by(alloc, world, asked)? {
            Ok(found) => is_method(alloc, world, Some(found), wanted),
            Err(refusal) => Ok(refusal_of(wanted) == Some(refusal)),
        }
    }
}

#[test]
fn resolves_methods(rt: HostRuntime) -> Result<(), Fail> {
    assert_eq!(rt; first_wrong(rt.alloc(), &Methods, METHODS)?, "");
    Ok(())
}
