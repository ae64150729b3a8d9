ghost use Rattle.std.specs.Prelude.{◌≡◌, ◌<◌, ◌↔◌, IsTrue, IfSome, IfNone};
ghost use Rattle.jv_types.specs.declared.ids.ClassId.{ClassId as Class};
ghost use Rattle.jv_types.specs.declared.label.LibBase.TheVariants as bases;
ghost use Rattle.jv_types.specs.declared.shapes.Shape.{Shape as ShapeValue};
ghost use Rattle.jv_world.specs.Instances.{IsBaseHere};
ghost use Rattle.av_rules.specs.declared.flat_type.FlatType.{FlatType as Flat};
ghost use Rattle.av_rules.specs.Labels.{IsLibType, IsMadeClass, IsSiteType, IsTypeOf, Passes, PassesFlat};
ghost use Rattle.av_rules.specs.StandInClasses.{IsFinalClass};
ghost use Rattle.av_rules.specs.Steps.Programs.{IsKeptIn, program_of};

use crate::any_classes::any_at;
use crate::flat_type::{FlatType, flat_of};
use crate::given::{Given, body_of, is_application_class};
use crate::making::made_at;
use jv_types::{ClassId, Label, LibBase, MethodId, RefType};
use jv_world::{World, is_final, is_interface};

/// Whether a class is one of the library that may not be extended.
fn is_final_class(world: &World, c: ClassId) -> bool
    ensures { IsTrue result ↔ ((class : ShapeValue) × IsFinalClass world.now c.number class) }
{
    match world.shapes().get(c.number as usize) {
        None => false,
        Some(shape) => !shape.application && is_final(shape) && !is_interface(shape),
    }
}

/// The class itself, where it is one of the library that may not be extended.
fn final_class(world: &World, c: ClassId) -> Option<ClassId>
    ensures found { IfSome result (λ own. (own ≡ c) × (class : ShapeValue) × IsFinalClass world.now c.number class) }
    ensures none { IfNone result ((class : ShapeValue) → ¬ IsFinalClass world.now c.number class) }
{
    if is_final_class(world, c) {
        Some(c)
    } else {
        None
    }
}

/// The type of arrays of a primitive type, which has one dimension at least.
fn prim_type(base: LibBase, dims: u8) -> Option<FlatType>
    ensures found { IfSome result (λ made. (0 < dims) × (made ≡ record { base = base; dims = dims })) }
    ensures none { IfNone result (dims ≡ 0) }
{
    if dims == 0 {
        None
    } else {
        Some(FlatType { base, dims })
    }
}

impl<'a> Given<'a> {
    /// The class of the stand-in's objects of a library class: that of any object, or a final class itself.
    fn made_class(&self, c: ClassId) -> Option<ClassId>
        requires kept { IsKeptIn self.now }
        ensures found { IfSome result (IsMadeClass self.now.world.now c) }
        ensures none { IfNone result ((made : Class) → ¬ IsMadeClass self.now.world.now c made) }
    {
        match any_at(self.world, self.any.as_slice(), c) {
            Some(any) => Some(any),
            None => final_class(self.world, c),
        }
    }

    /// The type of the stand-in's objects of a library class, or of arrays of them.
    fn class_type(&self, c: ClassId, dims: u8) -> Option<FlatType>
        requires kept { IsKeptIn self.now }
        ensures found { IfSome result (IsLibType self.now.world.now (bases.Class c) dims) }
        ensures none { IfNone result ((made : Flat) → ¬ IsLibType self.now.world.now (bases.Class c) dims made) }
    {
        match self.made_class(c) {
            None => None,
            Some(own) => Some(FlatType {
                base: LibBase::Class(own),
                dims,
            }),
        }
    }

    /// The type of the objects of a base.
    fn lib_type(&self, base: LibBase, dims: u8) -> Option<FlatType>
        requires kept { IsKeptIn self.now }
        ensures found { IfSome result (IsLibType self.now.world.now base dims) }
        ensures none { IfNone result ((made : Flat) → ¬ IsLibType self.now.world.now base dims made) }
    {
        match base {
            LibBase::Class(c) => self.class_type(c, dims),
            LibBase::Prim(prim) => prim_type(LibBase::Prim(prim), dims),
        }
    }

    /// The type of what an instruction of the application makes.
    fn site_type(&self, m: MethodId, pc: u16, depth: u8) -> Option<FlatType>
        requires kept { IsKeptIn self.now }
        ensures found { IfSome result (IsSiteType (program_of self.now) m pc depth) }
        ensures none { IfNone result ((made : Flat) → ¬ IsSiteType (program_of self.now) m pc depth made) }
    {
        if !is_application_class(self.world, m.class) {
            return None;
        }
        match body_of(self.methods, m) {
            None => None,
            Some(framed) => made_at(self.world, framed, pc, depth),
        }
    }

    /// The type of a label: that which is made at its site, or that of the stand-in's objects. It takes no memory.
    pub fn type_of(&self, label: Label) -> Option<FlatType>
        requires kept { IsKeptIn self.now }
        ensures found { IfSome result (IsTypeOf (program_of self.now) label) }
        ensures none { IfNone result ((made : Flat) → ¬ IsTypeOf (program_of self.now) label made) }
    {
        match label {
            Label::Site { method, pc, depth } => self.site_type(method, pc, depth),
            Label::Lib { base, dims } => self.lib_type(base, dims),
        }
    }

    /// Whether the objects of a label are instances of a type, whose class is one of the world. It takes no memory.
    pub fn passes_flat(&self, label: Label, of: FlatType) -> bool
        requires kept { IsKeptIn self.now }
        requires here { IsBaseHere self.now.world.now of.base }
        ensures { IsTrue result ↔ PassesFlat (program_of self.now) label of }
    {
        match self.type_of(label) {
            None => false,
            Some(made) => {
                let (dims, of_dims) = (made.dims as u32, of.dims as u32);
                self.world
                    .is_instance_in_dims(made.base, dims, of.base, of_dims)
            }
        }
    }

    /// Whether the objects of a label are instances of a type. It takes no memory.
    pub fn passes(&self, label: Label, of: &RefType) -> bool
        requires kept { IsKeptIn self.now }
        ensures { IsTrue result ↔ Passes (program_of self.now) label of.now }
    {
        match flat_of(self.world, of) {
            None => false,
            Some(flat) => self.passes_flat(label, flat),
        }
    }
}
