//! Laws of resolution. Each function does nothing, and its contract is the law. The class that a reference names
//! is one of the world; for an array it is Object.

ghost use Rattle.std.specs.Prelude.{◌↔◌, ℕ, List};
ghost use Rattle.jv_types.specs.declared.references.FieldRef.{FieldRef};
ghost use Rattle.jv_types.specs.declared.references.MethodRef.{MethodRef};
ghost use Rattle.jv_types.specs.declared.shapes.Shape.{Shape};
ghost use Rattle.jv_world.specs.Worlds.{IsNamed};
ghost use Rattle.jv_resolve.specs.declared.refusal.ResolveRefusal.{ResolveRefusal};
ghost use Rattle.jv_resolve.specs.References.{BeginsAt};
ghost use Rattle.jv_resolve.specs.Refusals.{IsFieldUnresolved, IsInterfaceMethodUnresolved, IsMethodUnresolved};
ghost use Rattle.jv_resolve.specs.Resolving.{ResolvesField, ResolvesInterfaceMethod, ResolvesMethod};
ghost use Rattle.jv_two_worlds.specs.Agreeing.{Agree};
ghost use Rattle.jv_two_worlds.specs.Renumbering.{StandsIn, field_to, method_to};

/// A reference to a field resolves to the same field in both worlds, or in neither (JVMS 5.4.3.2).
pub fn fields_resolve_alike()
    ensures found { (w v : List Shape) (to : ℕ → ℕ) (c : ℕ) (r : FieldRef) → StandsIn w v to → IsNamed w c r.class → Agree (field_to to) (ResolvesField w r) (ResolvesField v r) }
    ensures cause { (w v : List Shape) (to : ℕ → ℕ) (c : ℕ) (r : FieldRef) (why : ResolveRefusal) → StandsIn w v to → IsNamed w c r.class
        → IsFieldUnresolved w r why ↔ IsFieldUnresolved v r why }
{}

/// A reference to a method of a class or array resolves to the same method in both worlds, or fails in both for
/// the same cause (JVMS 5.4.3.3).
pub fn methods_resolve_alike()
    ensures found { (w v : List Shape) (to : ℕ → ℕ) (c : ℕ) (r : MethodRef) → StandsIn w v to → BeginsAt w r.class c → Agree (method_to to) (ResolvesMethod w r) (ResolvesMethod v r) }
    ensures cause { (w v : List Shape) (to : ℕ → ℕ) (c : ℕ) (r : MethodRef) (why : ResolveRefusal) → StandsIn w v to → BeginsAt w r.class c
        → IsMethodUnresolved w r why ↔ IsMethodUnresolved v r why }
{}

/// A reference to a method of an interface resolves to the same method in both worlds, or fails in both for the
/// same cause (JVMS 5.4.3.4).
pub fn interface_methods_resolve_alike()
    ensures found { (w v : List Shape) (to : ℕ → ℕ) (c : ℕ) (r : MethodRef) → StandsIn w v to → BeginsAt w r.class c
        → Agree (method_to to) (ResolvesInterfaceMethod w r) (ResolvesInterfaceMethod v r) }
    ensures cause { (w v : List Shape) (to : ℕ → ℕ) (c : ℕ) (r : MethodRef) (why : ResolveRefusal) → StandsIn w v to → BeginsAt w r.class c
        → IsInterfaceMethodUnresolved w r why ↔ IsInterfaceMethodUnresolved v r why }
{}
