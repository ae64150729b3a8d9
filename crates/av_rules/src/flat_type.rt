ghost use Rattle.std.specs.Prelude.{◌≡◌, ◌+◌, ◌<◌, ◌≤◌, ◌↔◌, IsTrue, IfSome, IfNone};
ghost use Rattle.av_rules.specs.declared.flat_type.FlatType.{FlatType as Flat};
ghost use Rattle.av_rules.specs.FlatTypes.{IsFlat};
ghost use Rattle.av_rules.specs.Labels.{IsReferenceFlat};

use jv_types::{LibBase, RefType};
use jv_world::World;

/// A type by its base and its dimensions: a class or interface itself has none, and a primitive type has one at
/// least, since only its arrays are made. There are at most 255 dimensions (JVMS 4.4.1).
#[derive(Clone, Copy, Debug, PartialEq, Eq)]
pub struct FlatType {
    pub base: LibBase,
    pub dims: u8,
}

impl FlatType {
    /// The type of arrays of this one, where it has fewer than 255 dimensions.
    pub(crate) fn array(self) -> Option<FlatType>
        ensures found { IfSome result (λ made. (self.dims < 255) × (made ≡ record { base = self.base; dims = self.dims + 1 })) }
        ensures none { IfNone result (255 ≤ self.dims) }
    {
        match self.dims.checked_add(1) {
            None => None,
            Some(dims) => Some(FlatType {
                base: self.base,
                dims,
            }),
        }
    }

    /// The type of the items of this one, where it is an array.
    pub(crate) fn item(self) -> Option<FlatType>
        ensures found { IfSome result (λ item. (item.base ≡ self.base) × (self.dims ≡ item.dims + 1)) }
        ensures none { IfNone result (self.dims ≡ 0) }
    {
        match self.dims.checked_sub(1) {
            None => None,
            Some(dims) => Some(FlatType {
                base: self.base,
                dims,
            }),
        }
    }

    /// The type of the arrays that have so many arrays of this one around.
    pub(crate) fn inside(self, depth: u8) -> Option<FlatType>
        ensures found { IfSome result (λ made. (made.base ≡ self.base) × (made.dims + depth ≡ self.dims)) }
        ensures none { IfNone result (self.dims < depth) }
    {
        match self.dims.checked_sub(depth) {
            None => None,
            Some(dims) => Some(FlatType {
                base: self.base,
                dims,
            }),
        }
    }

    /// This type, where it is no array.
    pub(crate) fn no_array(self) -> Option<FlatType>
        ensures found { IfSome result (λ made. (made ≡ self) × (self.dims ≡ 0)) }
        ensures none { IfNone result (¬ (self.dims ≡ 0)) }
    {
        if self.dims == 0 { Some(self) } else { None }
    }

    /// This type, where it is one of references: a class, or an array.
    pub(crate) fn of_references(self) -> Option<FlatType>
        ensures found { IfSome result (λ made. (made ≡ self) × IsReferenceFlat self) }
        ensures none { IfNone result (¬ IsReferenceFlat self) }
    {
        if is_reference(self) { Some(self) } else { None }
    }
}

/// Whether a type is one of references: a class, or an array.
fn is_reference(t: FlatType) -> bool
    ensures { IsTrue result ↔ IsReferenceFlat t }
{
    match t.base {
        LibBase::Class(_) => true,
        LibBase::Prim(_) => t.dims > 0,
    }
}

/// The type by its base and its dimensions, where its class is one of the world and it has at most 255 dimensions.
/// It takes no memory.
pub fn flat_of(world: &World, t: &RefType) -> Option<FlatType>
    ensures found { IfSome result (IsFlat world.now t.now) }
    ensures one { IfSome result (λ flat. (other : Flat) → IsFlat world.now t.now other → other ≡ flat) }
    ensures none { IfNone result ((flat : Flat) → ¬ IsFlat world.now t.now flat) }
{
    match t {
        RefType::Class(name) => match world.class(name) {
            None => None,
            Some(c) => Some(FlatType {
                base: LibBase::Class(c),
                dims: 0,
            }),
        },
        RefType::PrimArray(prim) => Some(FlatType {
            base: LibBase::Prim(*prim),
            dims: 1,
        }),
        RefType::Array(item) => match flat_of(world, item.get()) {
            None => None,
            Some(inner) => inner.array(),
        },
    }
}
