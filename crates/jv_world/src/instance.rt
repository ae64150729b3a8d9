ghost use Rattle.std.specs.Prelude.{◌↔◌, IsTrue};
ghost use Rattle.jv_world.specs.Instances.{IsArraySuper, IsArraySuperBase, IsBaseHere, IsBaseInstance, IsInstanceInDims, IsInstanceOf, IsInstanceOfClass, IsInterfaceNamed, IsSubNamed};

use crate::causes::is_interface;
use crate::world::World;
use jv_types::{LibBase, Name, RefType};

/// Whether every array is an instance of the class or interface of this name (JLS 4.10.3). It takes no memory.
pub fn is_array_super(name: &Name) -> bool
    ensures { IsTrue result ↔ IsArraySuper name.now }
{
    let name = name.as_slice();
    name == b"java/lang/Object".as_slice()
        || name == b"java/lang/Cloneable".as_slice()
        || name == b"java/io/Serializable".as_slice()
}

impl World {
    /// Whether the class of one name is a subtype of the class of the other. Each name is one of itself,
    /// also where the world has no class of that name. It takes no memory.
    pub fn is_sub_named(&self, name: &Name, of: &Name) -> bool
        ensures { IsTrue result ↔ IsSubNamed self.now name.now of.now }
    {
        if name == of {
            return true;
        }
        match (self.class(name), self.class(of)) {
            (Some(class), Some(other)) => self.sub(class, other),
            (Some(_), None) => false,
            (None, Some(_)) => false,
            (None, None) => false,
        }
    }

    /// Whether the name is that of an interface of the world. It takes no memory.
    pub fn is_interface_named(&self, name: &Name) -> bool
        ensures { IsTrue result ↔ IsInterfaceNamed self.now name.now }
    {
        match self.class(name) {
            None => false,
            Some(class) => is_interface(self.shape(class)),
        }
    }

    /// Whether each object of the type `t` is an instance of the class or interface of this name.
    fn is_instance_of_class(&self, t: &RefType, of: &Name) -> bool
        ensures { IsTrue result ↔ IsInstanceOfClass self.now t.now of.now }
    {
        match t {
            RefType::Class(name) => self.is_sub_named(name, of),
            RefType::PrimArray(_) => is_array_super(of),
            RefType::Array(_) => is_array_super(of),
        }
    }

    /// Whether each object of the type `t` is an instance of `of` (JVMS 4.10.1.2, JLS 4.10.3). A class is
    /// a subtype of itself, also where the world has none of its name.
    pub fn is_instance(&self, t: &RefType, of: &RefType) -> bool
        ensures { IsTrue result ↔ IsInstanceOf self.now t.now of.now }
    {
        match (t, of) {
            (_, RefType::Class(of)) => self.is_instance_of_class(t, of),
            (RefType::PrimArray(prim), RefType::PrimArray(other)) => prim == other,
            (RefType::Array(item), RefType::Array(other)) => {
                self.is_instance(item.get(), other.get())
            }
            (RefType::Class(_), RefType::PrimArray(_)) => false,
            (RefType::Class(_), RefType::Array(_)) => false,
            (RefType::PrimArray(_), RefType::Array(_)) => false,
            (RefType::Array(_), RefType::PrimArray(_)) => false,
        }
    }

    /// Whether the one base is an instance of the other.
    fn is_base_instance(&self, base: LibBase, of: LibBase) -> bool
        requires base_here { IsBaseHere self.now base }
        requires of_here { IsBaseHere self.now of }
        ensures { IsTrue result ↔ IsBaseInstance self.now base of }
    {
        match (base, of) {
            (LibBase::Class(class), LibBase::Class(other)) => self.sub(class, other),
            (LibBase::Prim(prim), LibBase::Prim(other)) => prim == other,
            (LibBase::Class(_), LibBase::Prim(_)) => false,
            (LibBase::Prim(_), LibBase::Class(_)) => false,
        }
    }

    /// Whether every array is an instance of the base.
    fn is_array_super_base(&self, of: LibBase) -> bool
        requires { IsBaseHere self.now of }
        ensures { IsTrue result ↔ IsArraySuperBase self.now of }
    {
        match of {
            LibBase::Class(class) => is_array_super(&self.shape(class).name),
            LibBase::Prim(_) => false,
        }
    }

    /// Whether each object of a type is an instance of another (JVMS 4.10.1.2, JLS 4.10.3), where each of the two is
    /// given by its base and its dimensions, which are none for a class itself. No name is looked up, and it takes no
    /// memory.
    pub fn is_instance_in_dims(&self, base: LibBase, dims: u32, of: LibBase, of_dims: u32) -> bool
        requires base_here { IsBaseHere self.now base }
        requires of_here { IsBaseHere self.now of }
        ensures { IsTrue result ↔ IsInstanceInDims self.now base dims of of_dims }
    {
        if dims == of_dims {
            return self.is_base_instance(base, of);
        }
        of_dims < dims && self.is_array_super_base(of)
    }
}
