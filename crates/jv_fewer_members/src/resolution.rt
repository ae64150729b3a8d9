//! Laws of resolution. Each function does nothing, and its contract is the law.

ghost use Rattle.std.specs.Prelude.{◌↔◌, ◌≢◌, ℕ, List};
ghost use Rattle.jv_types.specs.declared.references.FieldRef.{FieldRef};
ghost use Rattle.jv_types.specs.declared.references.MethodRef.{MethodRef};
ghost use Rattle.jv_types.specs.declared.shapes.Shape.{Shape};
ghost use Rattle.jv_resolve.specs.declared.refusal.ResolveRefusal.{ResolveRefusal};
ghost use Rattle.jv_resolve.specs.Refusals.{IsFieldUnresolved, IsInterfaceMethodUnresolved, IsMethodUnresolved};
ghost use Rattle.jv_resolve.specs.Resolving.{ResolvesField, ResolvesInterfaceMethod, ResolvesMethod};
ghost use Rattle.jv_two_worlds.specs.Agreeing.{Agree};
ghost use Rattle.jv_fewer_members.specs.Keeping.{class_init_name, KeepsAlike, KeepsField, KeepsInterfaceMethod, KeepsMembers, KeepsMethod};
ghost use Rattle.jv_fewer_members.specs.Parts.{HasFewerMembers, Places, whole_field, whole_method};

/// Where what a reference to a field resolves to is kept, the reference resolves to it in the part too, and to
/// nothing where it resolves to nothing in the whole (JVMS 5.4.3.2).
pub fn fields_resolve_to_kept()
    ensures found { (w v : List Shape) (at : Places) (r : FieldRef) → HasFewerMembers w v at → KeepsAlike w v at → KeepsField w v at r
        → Agree (whole_field at) (ResolvesField v r) (ResolvesField w r) }
    ensures cause { (w v : List Shape) (at : Places) (r : FieldRef) (why : ResolveRefusal) → HasFewerMembers w v at → KeepsAlike w v at → KeepsField w v at r
        → IsFieldUnresolved w r why ↔ IsFieldUnresolved v r why }
{}

/// A reference to a method of a class or array, whose method is kept, resolves to it in the part too, or fails in
/// both for the same cause (JVMS 5.4.3.3). No reference of a class file names `<clinit>` (JVMS 4.4.2).
pub fn methods_resolve_to_kept()
    ensures found { (w v : List Shape) (at : Places) (r : MethodRef) → HasFewerMembers w v at → KeepsMembers w v at → KeepsMethod w v at r → r.name ≢ class_init_name
        → Agree (whole_method at) (ResolvesMethod v r) (ResolvesMethod w r) }
    ensures cause { (w v : List Shape) (at : Places) (r : MethodRef) (why : ResolveRefusal) → HasFewerMembers w v at → KeepsMembers w v at → KeepsMethod w v at r → r.name ≢ class_init_name
        → IsMethodUnresolved w r why ↔ IsMethodUnresolved v r why }
{}

/// A reference to a method of an interface, whose method is kept, resolves to it in the part too, or fails in both
/// for the same cause (JVMS 5.4.3.4).
pub fn interface_methods_resolve_to_kept()
    ensures found { (w v : List Shape) (at : Places) (r : MethodRef) → HasFewerMembers w v at → KeepsMembers w v at → KeepsInterfaceMethod w v at r → r.name ≢ class_init_name
        → Agree (whole_method at) (ResolvesInterfaceMethod v r) (ResolvesInterfaceMethod w r) }
    ensures cause { (w v : List Shape) (at : Places) (r : MethodRef) (why : ResolveRefusal) → HasFewerMembers w v at → KeepsMembers w v at → KeepsInterfaceMethod w v at r → r.name ≢ class_init_name
        → IsInterfaceMethodUnresolved w r why ↔ IsInterfaceMethodUnresolved v r why }
{}
