//! Laws of classes and their supertypes. Each function does nothing, and its contract is the law.

ghost use Rattle.std.specs.Prelude.{◌↔◌, ℕ, List};
ghost use Rattle.jv_types.specs.declared.desc.RefType.{RefType};
ghost use Rattle.jv_types.specs.declared.label.LibBase.{LibBase};
ghost use Rattle.jv_types.specs.declared.shapes.Shape.{Shape};
ghost use Rattle.jv_world.specs.Instances.{IsInstanceInDims, IsInstanceOf, IsInterfaceNamed, IsSubNamed};
ghost use Rattle.jv_world.specs.Worlds.{HasSuperclass, IsNamed, IsSubclass, IsWorld, ProperSub, Sub};
ghost use Rattle.jv_resolve.specs.Members.{IsInterfaceClass};
ghost use Rattle.jv_fewer_members.specs.Parts.{HasFewerMembers, HaveSameFinals, Places};

/// The part is a world too, where its classes are final as those of the whole are (JVMS 5.3.5).
pub fn parts_are_worlds()
    ensures { (w v : List Shape) (at : Places) → HasFewerMembers w v at → HaveSameFinals w v → IsWorld v }
{}

/// A class has its name and its kind in the part too (JVMS 4.1).
pub fn classes_stay()
    ensures name { (w v : List Shape) (at : Places) (c : ℕ) (name : List ℕ) → HasFewerMembers w v at → IsNamed w c name ↔ IsNamed v c name }
    ensures kind { (w v : List Shape) (at : Places) (c : ℕ) → HasFewerMembers w v at → IsInterfaceClass w c ↔ IsInterfaceClass v c }
{}

/// The supertypes and the superclasses of a class are the same in the part (JVMS 4.1, JLS 4.10.2).
pub fn supertypes_stay()
    ensures above { (w v : List Shape) (at : Places) (c d : ℕ) → HasFewerMembers w v at → Sub w c d ↔ Sub v c d }
    ensures properly_above { (w v : List Shape) (at : Places) (c d : ℕ) → HasFewerMembers w v at → ProperSub w c d ↔ ProperSub v c d }
    ensures direct_superclass { (w v : List Shape) (at : Places) (c d : ℕ) → HasFewerMembers w v at → HasSuperclass w c d ↔ HasSuperclass v c d }
    ensures superclass { (w v : List Shape) (at : Places) (c d : ℕ) → HasFewerMembers w v at → IsSubclass w c d ↔ IsSubclass v c d }
{}

/// A type is an instance of the same types in the part, by names and by numbers (JLS 4.10.3).
pub fn instances_stay()
    ensures by_name { (w v : List Shape) (at : Places) (name of : List ℕ) → HasFewerMembers w v at → IsSubNamed w name of ↔ IsSubNamed v name of }
    ensures interface { (w v : List Shape) (at : Places) (name : List ℕ) → HasFewerMembers w v at → IsInterfaceNamed w name ↔ IsInterfaceNamed v name }
    ensures by_type { (w v : List Shape) (at : Places) (type of : RefType) → HasFewerMembers w v at → IsInstanceOf w type of ↔ IsInstanceOf v type of }
    ensures by_number { (w v : List Shape) (at : Places) (base : LibBase) (dims : ℕ) (of : LibBase) (of_dims : ℕ) → HasFewerMembers w v at
        → IsInstanceInDims w base dims of of_dims ↔ IsInstanceInDims v base dims of of_dims }
{}
