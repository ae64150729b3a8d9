//! Laws of access. Each function does nothing, and its contract is the law.

ghost use Rattle.std.specs.Prelude.{◌↔◌, ◌≢◌, ℕ, List};
ghost use Rattle.jv_types.specs.declared.ids.FieldId.{FieldId};
ghost use Rattle.jv_types.specs.declared.ids.MethodId.{MethodId};
ghost use Rattle.jv_types.specs.declared.references.FieldRef.{FieldRef};
ghost use Rattle.jv_types.specs.declared.references.MethodRef.{MethodRef};
ghost use Rattle.jv_types.specs.declared.shapes.Shape.{Shape};
ghost use Rattle.jv_resolve.specs.declared.refusal.ResolveRefusal.{ResolveRefusal};
ghost use Rattle.jv_resolve.specs.Access.{IsClassAccessible, IsFieldAccessible, IsMethodAccessible};
ghost use Rattle.jv_resolve.specs.Members.{HasField, HasMethod};
ghost use Rattle.jv_resolve.specs.Packages.{AreInOnePackage};
ghost use Rattle.jv_resolve.specs.Refusals.{HasFieldCause, HasInterfaceMethodCause, HasMethodCause};
ghost use Rattle.jv_fewer_members.specs.Keeping.{class_init_name, KeepsAlike, KeepsField, KeepsInterfaceMethod, KeepsMembers, KeepsMethod};
ghost use Rattle.jv_fewer_members.specs.Parts.{HasFewerMembers, Places, whole_field, whole_method};

/// A class, and by a reference a member of the part, is accessible from a class in both worlds, or in neither (JVMS
/// 5.4.4). Two classes are of one package in both, or in neither (JVMS 5.3).
pub fn access_stays()
    ensures package { (w v : List Shape) (at : Places) (c d : ℕ) → HasFewerMembers w v at → AreInOnePackage w c d ↔ AreInOnePackage v c d }
    ensures class { (w v : List Shape) (at : Places) (from c : ℕ) → HasFewerMembers w v at → IsClassAccessible w from c ↔ IsClassAccessible v from c }
    ensures field { (w v : List Shape) (at : Places) (from : ℕ) (r : FieldRef) (f : FieldId) → HasFewerMembers w v at → HasField v f
        → IsFieldAccessible w from r (whole_field at f) ↔ IsFieldAccessible v from r f }
    ensures method { (w v : List Shape) (at : Places) (from : ℕ) (r : MethodRef) (m : MethodId) → HasFewerMembers w v at → HasMethod v m
        → IsMethodAccessible w from r (whole_method at m) ↔ IsMethodAccessible v from r m }
{}

/// A reference in a class, whose member is kept, is refused in both worlds for the same cause, or in neither: the
/// kind, what is found, and access (JVMS 5.4.3).
pub fn refusals_stay()
    ensures field { (w v : List Shape) (at : Places) (from : ℕ) (r : FieldRef) (why : ResolveRefusal) → HasFewerMembers w v at → KeepsAlike w v at → KeepsField w v at r
        → HasFieldCause w from r why ↔ HasFieldCause v from r why }
    ensures method { (w v : List Shape) (at : Places) (from : ℕ) (r : MethodRef) (why : ResolveRefusal) → HasFewerMembers w v at → KeepsMembers w v at → KeepsMethod w v at r → r.name ≢ class_init_name
        → HasMethodCause w from r why ↔ HasMethodCause v from r why }
    ensures interface_method { (w v : List Shape) (at : Places) (from : ℕ) (r : MethodRef) (why : ResolveRefusal) → HasFewerMembers w v at → KeepsMembers w v at → KeepsInterfaceMethod w v at r
        → r.name ≢ class_init_name → HasInterfaceMethodCause w from r why ↔ HasInterfaceMethodCause v from r why }
{}
