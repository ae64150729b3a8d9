//! Laws of access. Each function does nothing, and its contract is the law. The class that a reference names is one
//! of the world; for an array it is Object.

ghost use Rattle.std.specs.Prelude.{◌↔◌, ℕ, ◌<◌, List, length};
ghost use Rattle.jv_types.specs.declared.ids.FieldId.{FieldId};
ghost use Rattle.jv_types.specs.declared.ids.MethodId.{MethodId};
ghost use Rattle.jv_types.specs.declared.references.FieldRef.{FieldRef};
ghost use Rattle.jv_types.specs.declared.references.MethodRef.{MethodRef};
ghost use Rattle.jv_types.specs.declared.shapes.Shape.{Shape};
ghost use Rattle.jv_world.specs.Worlds.{IsNamed};
ghost use Rattle.jv_resolve.specs.declared.refusal.ResolveRefusal.{ResolveRefusal};
ghost use Rattle.jv_resolve.specs.Access.{IsClassAccessible, IsFieldAccessible, IsMethodAccessible};
ghost use Rattle.jv_resolve.specs.Packages.{AreInOnePackage};
ghost use Rattle.jv_resolve.specs.References.{BeginsAt};
ghost use Rattle.jv_resolve.specs.Refusals.{HasFieldCause, HasInterfaceMethodCause, HasMethodCause};
ghost use Rattle.jv_two_worlds.specs.Renumbering.{StandsIn, field_to, method_to};

/// Two classes are of one package in both worlds, or in neither (JVMS 5.3).
pub fn packages_agree()
    ensures { (w v : List Shape) (to : ℕ → ℕ) (c d : ℕ) → StandsIn w v to → c < length w → d < length w → AreInOnePackage w c d ↔ AreInOnePackage v (to c) (to d) }
{}

/// A class, and by a reference a field or a method, is accessible from a class in both worlds, or in neither (JVMS
/// 5.4.4).
pub fn access_agrees()
    ensures class { (w v : List Shape) (to : ℕ → ℕ) (from c : ℕ) → StandsIn w v to → from < length w → c < length w → IsClassAccessible w from c ↔ IsClassAccessible v (to from) (to c) }
    ensures field { (w v : List Shape) (to : ℕ → ℕ) (from c : ℕ) (r : FieldRef) (f : FieldId) → StandsIn w v to → from < length w → f.class.number < length w → IsNamed w c r.class
        → IsFieldAccessible w from r f ↔ IsFieldAccessible v (to from) r (field_to to f) }
    ensures method { (w v : List Shape) (to : ℕ → ℕ) (from c : ℕ) (r : MethodRef) (m : MethodId) → StandsIn w v to → from < length w → m.class.number < length w → BeginsAt w r.class c
        → IsMethodAccessible w from r m ↔ IsMethodAccessible v (to from) r (method_to to m) }
{}

/// A reference in a class is refused in both worlds for the same cause, or in neither: the kind, what is found, and
/// access (JVMS 5.4.3).
pub fn refusals_agree()
    ensures field { (w v : List Shape) (to : ℕ → ℕ) (from c : ℕ) (r : FieldRef) (why : ResolveRefusal) → StandsIn w v to → from < length w → IsNamed w c r.class
        → HasFieldCause w from r why ↔ HasFieldCause v (to from) r why }
    ensures method { (w v : List Shape) (to : ℕ → ℕ) (from c : ℕ) (r : MethodRef) (why : ResolveRefusal) → StandsIn w v to → from < length w → BeginsAt w r.class c
        → HasMethodCause w from r why ↔ HasMethodCause v (to from) r why }
    ensures interface_method { (w v : List Shape) (to : ℕ → ℕ) (from c : ℕ) (r : MethodRef) (why : ResolveRefusal) → StandsIn w v to → from < length w → BeginsAt w r.class c
        → HasInterfaceMethodCause w from r why ↔ HasInterfaceMethodCause v (to from) r why }
{}
