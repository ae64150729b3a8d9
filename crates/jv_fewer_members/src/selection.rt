//! Laws of what a call runs. Each function does nothing, and its contract is the law.

ghost use Rattle.std.specs.Prelude.{◌⊎◌, ℕ, List};
ghost use Rattle.jv_types.specs.declared.ids.MethodId.{MethodId};
ghost use Rattle.jv_types.specs.declared.references.MethodRef.{MethodRef};
ghost use Rattle.jv_types.specs.declared.shapes.Shape.{Shape};
ghost use Rattle.jv_world.specs.Worlds.{Sub};
ghost use Rattle.jv_resolve.specs.Resolving.{ResolvesInterfaceMethod, ResolvesMethod};
ghost use Rattle.jv_resolve.specs.Selecting.{SelectsInterface, SelectsSpecial, SelectsVirtual};
ghost use Rattle.jv_two_worlds.specs.Agreeing.{Agree};
ghost use Rattle.jv_fewer_members.specs.Keeping.{IsSelectable, KeepsMembers};
ghost use Rattle.jv_fewer_members.specs.Parts.{HasFewerMembers, Places, whole_method};

/// A call of a method of the part, on an object of a class below that of the method, runs there what it runs in the
/// whole, or nothing in both (JVMS 6.5). For invokespecial the reference resolves to the method in the whole.
pub fn calls_select_kept()
    ensures by_virtual { (w v : List Shape) (at : Places) (c : ℕ) (resolved : MethodId) → HasFewerMembers w v at → KeepsMembers w v at → IsSelectable v resolved → Sub w c resolved.class.number
        → Agree (whole_method at) (SelectsVirtual v c resolved) (SelectsVirtual w c (whole_method at resolved)) }
    ensures by_interface { (w v : List Shape) (at : Places) (c : ℕ) (resolved : MethodId) → HasFewerMembers w v at → KeepsMembers w v at → IsSelectable v resolved → Sub w c resolved.class.number
        → Agree (whole_method at) (SelectsInterface v c resolved) (SelectsInterface w c (whole_method at resolved)) }
    ensures by_special { (w v : List Shape) (at : Places) (from : ℕ) (r : MethodRef) (resolved : MethodId) → HasFewerMembers w v at → KeepsMembers w v at → IsSelectable v resolved
        → ResolvesMethod w r (whole_method at resolved) ⊎ ResolvesInterfaceMethod w r (whole_method at resolved)
        → Agree (whole_method at) (SelectsSpecial v from r resolved) (SelectsSpecial w from r (whole_method at resolved)) }
{}
