ghost use Rattle.std.specs.Prelude.{◌↔◌, IsTrue};
ghost use Rattle.std.specs.List.{AllZip};
ghost use Rattle.jv_types.specs.declared.frames.VType.{Class, PrimArray};
ghost use Rattle.jv_frames.specs.Assignable.{IsClassAssignable, IsAssignable, IsFrameAssignable};

use jv_types::{Frame, Name, Prim, VType};
use jv_world::{World, is_array_super};

/// Whether the class or interface of one name is assignable to that of the other.
fn is_class_assignable(world: &World, name: &Name, of: &Name) -> bool
    ensures { IsTrue result ↔ IsClassAssignable world.now name.now of.now }
{
    world.is_sub_named(name, of)
        || of.as_slice() == b"java/lang/Object".as_slice()
        || world.is_interface_named(of)
}

/// Whether a type is assignable to the class or interface of this name.
fn assignable_to_class(world: &World, a: &VType, of: &Name) -> bool
    ensures { IsTrue result ↔ IsAssignable world.now a.now (Class of.now) }
{
    match a {
        VType::Null => true,
        VType::Class(name) => is_class_assignable(world, name, of),
        VType::PrimArray(_) => is_array_super(of),
        VType::Array(_) => is_array_super(of),
        VType::Top => false,
        VType::Integer => false,
        VType::Float => false,
        VType::Long => false,
        VType::Double => false,
        VType::UninitThis => false,
        VType::Uninit(_) => false,
    }
}

/// Whether a type is assignable to the array of this primitive type.
fn assignable_to_prim_array(world: &World, a: &VType, of: Prim) -> bool
    ensures { IsTrue result ↔ IsAssignable world.now a.now (PrimArray of) }
{
    match a {
        VType::Null => true,
        VType::PrimArray(own) => *own == of,
        VType::Array(_) => false,
        VType::Class(_) => false,
        VType::Top => false,
        VType::Integer => false,
        VType::Float => false,
        VType::Long => false,
        VType::Double => false,
        VType::UninitThis => false,
        VType::Uninit(_) => false,
    }
}

/// Whether the first type is assignable to the second (JVMS 4.10.1.2): a type to itself and to Top, Null to
/// each class, interface and array, a class or interface to its supertypes and to each interface, an array
/// to Object, Cloneable and Serializable, and an array of references to one of what its items are assignable
/// to.
pub fn assignable(world: &World, a: &VType, b: &VType) -> bool
    ensures { IsTrue result ↔ IsAssignable world.now a.now b.now }
{
    match b {
        VType::Top => true,
        VType::Class(of) => assignable_to_class(world, a, of),
        VType::PrimArray(of) => assignable_to_prim_array(world, a, *of),
        VType::Array(other) => match a {
            VType::Null => true,
            VType::Array(item) => assignable(world, item.get(), other.get()),
            _ => false,
        },
        VType::Integer
        | VType::Float
        | VType::Long
        | VType::Double
        | VType::Null
        | VType::UninitThis
        | VType::Uninit(_) => a.is(b),
    }
}

/// Whether the types of the one list are assignable to those of the other, place by place.
pub fn are_assignable(world: &World, types: &[VType], others: &[VType]) -> bool
    ensures { IsTrue result ↔ AllZip (IsAssignable world.now) types.now others.now }
{
    if types.len() != others.len() {
        return false;
    }
    for (place, of) in types.iter().enumerate() {
        if !assignable(world, of, &others[place]) {
            return false;
        }
    }
    true
}

/// Whether the first frame is assignable to the second (JVMS 4.10.1.4): its types, word by word, and the
/// flag may be gained and not lost.
pub fn frame_assignable(world: &World, frame: &Frame, other: &Frame) -> bool
    ensures { IsTrue result ↔ IsFrameAssignable world.now frame.now other.now }
{
    are_assignable(world, frame.locals.as_slice(), other.locals.as_slice())
        && are_assignable(world, frame.stack.as_slice(), other.stack.as_slice())
        && (!frame.this_uninit || other.this_uninit)
}
