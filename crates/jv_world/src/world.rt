ghost use Rattle.std.specs.Prelude.{◌≡◌, ℕ, ◌<◌, ◌↔◌, List, Some, length, map, slice_get, IsTrue, IfOk, IfErr, IfSome, IfNone};
ghost use Rattle.jv_world.specs.Worlds.{IsNamed, HasSuperclass, IsSubclass, Sub, AreSuperclasses, AreNumbered, AreProperSupers, IsWorld};
ghost use Rattle.jv_world.specs.MemberPlaces.{HasNoField, HasNoMethod, IsFieldPlace, IsMethodPlace};
ghost use Rattle.jv_world.specs.Refusals.{HasCause};

use crate::causes::{least_absent, least_circular, least_wrong};
use crate::closure::all_led;
use crate::links::links_of;
use crate::lists::contains;
use crate::members::{Members, all_members};
use crate::names::Names;
use crate::refusal::HierRefusal;
use jv_types::{ClassId, Copied, Desc, MethodDesc, Name, Shape};
use std::alloc::{AllocError, Global};
use std::marker::Model;

/// The classes and interfaces of a program, which clauses see as the list of their shapes. A class goes
/// by its number, which is its place in the list.
#[derive(Drop)]
pub struct World {
    shapes: Vec<Shape>,
    /// The names, in the order of the shapes.
    names: Names,
    /// The proper supertypes of each class, least number first.
    supers: Vec<Vec<ClassId>>,
    /// The members of each class, found by name and descriptor.
    members: Vec<Members>,
}

impl Model for World {
    ghost use Rattle.std.specs.Prelude.{List};
    ghost use Rattle.jv_types.specs.declared.shapes.Shape.{Shape};
    ghost use Rattle.jv_world.specs.Steps.Kept.{IsKept};
    ghost use Rattle.jv_types.specs.contracts.shapes.Shape as shape;
    ghost use Rattle.std.specs.Coded.{codes};

    ghost Value = { List Shape };

    ghost coded = { Prim.hlevel (codes, shape.the_row.coded) };

    ghost view = { λ w. w.shapes.items };

    ghost invariant = { λ w. IsKept w.shapes.items w.names w.supers.items w.members.items };
}

impl World {
    /// The world of these shapes, where they make one. Refused is first a supertype that isn't there, by
    /// its name, then a class that is its own proper supertype, then one whose supertypes are of the wrong
    /// kind; each time the least name in bytes.
    pub fn build(alloc: Global, shapes: Vec<Shape>) -> Result<World, HierRefusal>
        requires { AreNumbered shapes.items }
        ensures built { IfOk result (λ w. w ≡ shapes.items) }
        ensures world { IfOk result IsWorld }
        ensures refused { IfErr result (HasCause shapes.items) }
    {
        let names = Names::of(alloc, shapes.as_slice())?;
        if let Some(name) = least_absent(shapes.as_slice(), &names) {
            return Err(HierRefusal::Missing(name.copy()?));
        }
        let links = links_of(alloc, shapes.as_slice(), &names)?;
        let supers = all_led(alloc, links.as_slice())?;
        if let Some(name) = least_circular(shapes.as_slice(), supers.as_slice()) {
            return Err(HierRefusal::Circular(name.copy()?));
        }
        if let Some(name) = least_wrong(shapes.as_slice(), &names) {
            return Err(HierRefusal::SuperKind(name.copy()?));
        }
        let members = all_members(alloc, shapes.as_slice())?;
        Ok(World {
            shapes,
            names,
            supers,
            members,
        })
    }

    /// The shapes, a class at the place of its number.
    pub fn shapes(&self) -> &[Shape]
        ensures shapes { result.now ≡ self.now }
        ensures world { IsWorld self.now }
    {
        self.shapes.as_slice()
    }

    /// The shapes, which the world gives up. It takes no memory.
    pub fn into_shapes(self) -> Vec<Shape>
        ensures shapes { result.items ≡ self }
        ensures world { IsWorld self }
    {
        self.shapes
    }

    /// The class or interface of this name, if the world has one.
    pub fn class(&self, name: &Name) -> Option<ClassId>
        ensures found { IfSome result (λ c. IsNamed self.now c.number name.now) }
        ensures within { IfSome result (λ c. c.number < length self.now) }
        ensures none { IfNone result ((c : ℕ) → ¬ IsNamed self.now c name.now) }
        ensures world { IsWorld self.now }
    {
        match self.names.place(name) {
            None => None,
            Some(number) => Some(ClassId {
                number: number as u32,
            }),
        }
    }

    /// The shape of a class.
    pub fn shape(&self, c: ClassId) -> &Shape
        requires { c.number < length self.now }
        ensures shape { slice_get self.now c.number ≡ Some result.now }
        ensures world { IsWorld self.now }
    {
        &self.shapes[c.number as usize]
    }

    /// Whether `a` is a subtype of `b` (JLS 4.10.2): `b` is `a`, or is reached from it by superclass and
    /// superinterface links.
    pub fn sub(&self, a: ClassId, b: ClassId) -> bool
        requires a_here { a.number < length self.now }
        requires b_here { b.number < length self.now }
        ensures exact { IsTrue result ↔ Sub self.now a.number b.number }
        ensures world { IsWorld self.now }
    {
        let supers = self.proper_supers(a);
        a == b || contains(supers, b)
    }

    /// The direct superclass of a class; none of Object alone (JVMS 4.1).
    pub fn superclass(&self, c: ClassId) -> Option<ClassId>
        requires { c.number < length self.now }
        ensures found { IfSome result (λ d. HasSuperclass self.now c.number d.number) }
        ensures within { IfSome result (λ d. d.number < length self.now) }
        ensures none { IfNone result ((d : ℕ) → ¬ HasSuperclass self.now c.number d) }
        ensures world { IsWorld self.now }
    {
        match &self.shape(c).parent {
            None => None,
            Some(parent) => self.class(parent),
        }
    }

    /// Whether `c` is `d` or a subclass of it: superclass links alone lead from the one to the other. Of
    /// interfaces only Object is a superclass (JVMS 4.1).
    pub fn is_subclass(&self, c: ClassId, d: ClassId) -> bool
        requires { c.number < length self.now }
        ensures exact { IsTrue result ↔ IsSubclass self.now c.number d.number }
        ensures world { IsWorld self.now }
    {
        let mut class = c;
        let count = self.shapes().len();
        for links in 0..count {
            if class.number == d.number {
                return true;
            }
            match self.superclass(class) {
                None => return false,
                Some(parent) => class = parent,
            }
        }
        unreachable!()
    }

    /// The superclasses of a class, the direct one first and Object last. Only memory can be wanting.
    pub fn superclasses(&self, alloc: Global, c: ClassId) -> Result<Vec<ClassId>, AllocError>
        requires { c.number < length self.now }
        ensures chain { IfOk result (λ found. AreSuperclasses self.now c.number (map (λ d. d.number) found.items)) }
        ensures world { IsWorld self.now }
    {
        let mut found = Vec::new(alloc);
        let mut class = c;
        while let Some(next) = self.superclass(class) {
            // each superclass has fewer supertypes, so the chain ends
            prove!(
                self.supers[next.number as usize].len() < self.supers[class.number as usize].len()
            );
            found.push(next)?;
            class = next;
        }
        Ok(found)
    }

    /// The proper supertypes of a class, least number first, lent.
    pub fn proper_supers(&self, c: ClassId) -> &[ClassId]
        requires { c.number < length self.now }
        ensures exact { AreProperSupers self.now c.number result.now }
        ensures world { IsWorld self.now }
    {
        self.supers[c.number as usize].as_slice()
    }

    /// The proper supertypes of a class, least number first. Only memory can be wanting.
    pub fn supers(&self, alloc: Global, c: ClassId) -> Result<Vec<ClassId>, AllocError>
        requires { c.number < length self.now }
        ensures exact { IfOk result (λ found. AreProperSupers self.now c.number found.items) }
        ensures world { IsWorld self.now }
    {
        Vec::from_slice(alloc, self.proper_supers(c))
    }

    /// The place of the method that a class declares with this name and descriptor, the first where there are
    /// more. It is found by halves among the methods of the class, and takes no memory.
    pub fn method_place(&self, c: ClassId, name: &Name, desc: &MethodDesc) -> Option<u16>
        requires { c.number < length self.now }
        ensures found { IfSome result (IsMethodPlace self.now c.number name.now desc.now) }
        ensures none { IfNone result (HasNoMethod self.now c.number name.now desc.now) }
        ensures world { IsWorld self.now }
    {
        let members = &self.members[c.number as usize];
        members.method_place(self.shape(c), name, desc)
    }

    /// The place of the field that a class declares with this name and type, the first where there are more.
    /// It is found by halves among the fields of the class, and takes no memory.
    pub fn field_place(&self, c: ClassId, name: &Name, desc: &Desc) -> Option<u16>
        requires { c.number < length self.now }
        ensures found { IfSome result (IsFieldPlace self.now c.number name.now desc.now) }
        ensures none { IfNone result (HasNoField self.now c.number name.now desc.now) }
        ensures world { IsWorld self.now }
    {
        let members = &self.members[c.number as usize];
        members.field_place(self.shape(c), name, desc)
    }
}
