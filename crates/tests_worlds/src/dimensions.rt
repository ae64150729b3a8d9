//! Arrays by their innermost items and how many dimensions they have (JLS 4.10.3).

ghost use Rattle.std.specs.Prelude.{IfOk};
ghost use Rattle.jv_world.specs.Instances.{IsBaseHere};

use jv_types::{LibBase, Prim};
use jv_world::World;
use std::alloc::Global;
use std::test::Fail;
use tests_shapes::{Asked, class_of, first_wrong};
use tests_text::word;

/// Worlds, each with two types by their bases and dimensions, and whether the first is an instance of the second.
const INSTANCES: &str = "\
a/I,I a/C,C,,a/I = a/C 0 a/I 0 = true
a/I,I a/C,C,,a/I = a/C 2 a/I 2 = true
a/I,I a/C,C,,a/I = a/I 1 a/C 1 = false
a/C,C = a/C 2 a/C 1 = false
a/C,C = a/C 1 a/C 2 = false
a/C,C = a/C 1 java/lang/Object 0 = true
a/C,C = a/C 2 java/lang/Object 1 = true
a/C,C = a/C 0 java/lang/Object 1 = false
java/lang/Cloneable,I a/C,C = a/C 2 java/lang/Cloneable 1 = true
java/lang/Cloneable,I a/C,C = a/C 1 java/lang/Cloneable 1 = false
a/C,C = int 1 java/lang/Object 0 = true
a/C,C = int 2 java/lang/Object 1 = true
a/C,C = int 1 java/lang/Object 1 = false
a/C,C = int 1 int 1 = true
a/C,C = int 2 int 1 = false
a/C,C = int 1 byte 1 = false
a/C,C = a/C 1 int 1 = false";

/// What the innermost items of arrays are: `int`, `byte`, or the class of a name.
fn base_of(alloc: Global, world: &World, text: &str) -> Result<LibBase, Fail>
    ensures { IfOk result (IsBaseHere world.now) }
{
    if text == "int" {
        return Ok(LibBase::Prim(Prim::Int));
    }
    if text == "byte" {
        return Ok(LibBase::Prim(Prim::Byte));
    }
    Ok(LibBase::Class(class_of(alloc, world, text)?))
}

/// Types by bases and dimensions.
struct Dimensions;

impl Asked for Dimensions {
    fn is_answered(
        &self,
        alloc: Global,
        world: &World,
        asked: &str,
        wanted: &str,
    ) -> Result<bool, Fail> {
        let base = base_of(alloc, world, word(asked, 0))?;
        let of = base_of(alloc, world, word(asked, 2))?;
        let dims = word(asked, 1).parse::<u32>()?;
        let of_dims = word(asked, 3).parse::<u32>()?;
        Ok(world.is_instance_in_dims(base, dims, of, of_dims) == (wanted == "true"))
    }
}

#[test]
fn tells_instances_in_dimensions(rt: HostRuntime) -> Result<(), Fail> {
    assert_eq!(rt; first_wrong(rt.alloc(), &Dimensions, INSTANCES)?, "");
    Ok(())
}
