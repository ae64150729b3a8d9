//! Resolution of fields (JVMS 5.4.3.2) and access to them (5.4.4).

use crate::methods::refusal_of;
use jv_resolve::{ResolveRefusal, field, resolve_field};
use jv_types::{FieldId, FieldRef};
use jv_world::World;
use std::alloc::Global;
use std::test::Fail;
use tests_shapes::{Asked, class_of, field_ref_of, first_wrong, is_class};
use tests_text::word;

/// Worlds, each with a class, or `any` where access isn't asked, a reference to a field, and the class in which it
/// is found.
const FIELDS: &str = "\
# JVMS 5.4.3.2: the class, then its superinterfaces, then its superclass, each with all above it
a/P,C,,+.x:La/T; a/I,I,,+sx:La/T; a/C,C,a/P,a/I,+.x:La/T; = a/C a/C.x:La/T; = a/C
a/P,C,,+.x:La/T; a/I,I,,+sx:La/T; a/C,C,a/P,a/I = a/C a/C.x:La/T; = a/I
a/K,I,,+sx:La/T; a/J,I,,a/K a/I,I,,+sx:La/T; a/C,C,,a/J,a/I = a/C a/C.x:La/T; = a/K
a/I,I a/K,I,,+sx:La/T; a/P,C,,a/K a/C,C,a/P,a/I = a/C a/C.x:La/T; = a/K
a/P,C,,+.x:La/T; a/I,I a/C,C,a/P,a/I = a/C a/C.x:La/T; = a/P
a/C,C,,+.x:La/T; = a/C a/C.x:La/S; = NotFound
a/C,C,,+.x:La/T; = a/C a/Z.x:La/T; = NotFound
# and it has to be accessible
a/P,C,,-.x:La/T; a/C,C = a/C a/P.x:La/T; = NoAccess
a/P,C,,~.x:La/T; b/C,C,a/P = b/C a/P.x:La/T; = NoAccess
a/P,C,,#.x:La/T; b/C,C,a/P = b/C b/C.x:La/T; = a/P
a/P,C,,#.x:La/T; b/C,C,a/P b/D,C,a/P = b/C b/D.x:La/T; = NoAccess
library = lib/Base java/lang/System.out:Ljava/io/PrintStream; = java/lang/System
# resolution alone asks for no access
a/P,C,,-.x:La/T; a/C,C = any a/P.x:La/T; = a/P
a/P,C = any a/P.x:La/T; = NotFound";

/// What a class finds by its reference.
fn found_by(
    alloc: Global,
    world: &World,
    from: &str,
    r: &FieldRef,
) -> Result<Result<FieldId, ResolveRefusal>, Fail> {
    if from == "any" {
        return Ok(resolve_field(alloc, world, r));
    }
    let from = class_of(alloc, world, from)?;
    Ok(field(alloc, world, from, r))
}

/// Whether a field has the name and the type of a reference.
fn is_referred_to(world: &World, f: FieldId, r: &FieldRef) -> bool {
    let Some(shape) = world.shapes().get(f.class.number as usize) else {
        return false;
    };
    match shape.fields.as_slice().get(usize::from(f.index)) {
        None => false,
        Some(field) => field.name == r.name && field.desc == r.desc,
    }
}

/// References to fields.
struct Fields;

impl Asked for Fields {
    fn is_answered(
        &self,
        alloc: Global,
        world: &World,
        asked: &str,
        wanted: &str,
    ) -> Result<bool, Fail> {
        let r = field_ref_of(alloc, word(asked, 1))?;
        match found_by(alloc, world, word(asked, 0), &r)? {
            Ok(f) => Ok(is_class(world, f.class, wanted) && is_referred_to(world, f, &r)),
            Err(refusal) => Ok(refusal_of(wanted) == Some(refusal)),
        }
    }
}

#[test]
fn resolves_fields(rt: HostRuntime) -> Result<(), Fail> {
    assert_eq!(rt; first_wrong(rt.alloc(), &Fields, FIELDS)?, "");
    Ok(())
}
