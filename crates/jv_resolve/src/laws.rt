//! Laws of the definitions that the contracts cite. Each function does nothing, and its contract is the
//! law.

ghost use Rattle.std.specs.Prelude.{◌≡◌, ℕ, List};
ghost use Rattle.jv_types.specs.declared.ids.FieldId.{FieldId};
ghost use Rattle.jv_types.specs.declared.ids.MethodId.{MethodId};
ghost use Rattle.jv_types.specs.declared.references.FieldRef.{FieldRef};
ghost use Rattle.jv_types.specs.declared.references.MethodRef.{MethodRef};
ghost use Rattle.jv_types.specs.declared.shapes.Shape.{Shape};
ghost use Rattle.jv_world.specs.Worlds.{IsWorld};
ghost use Rattle.jv_resolve.specs.Resolving.{ResolvesField, ResolvesMethod, ResolvesInterfaceMethod};
ghost use Rattle.jv_resolve.specs.Selecting.{SelectsVirtual, SelectsInterface, SelectsSpecial};

/// In a world a reference resolves to one member at most (JVMS 5.4.3.2 to 5.4.3.4).
pub fn references_resolve_to_one()
    ensures field { (w : List Shape) (r : FieldRef) (f g : FieldId) → IsWorld w → ResolvesField w r f → ResolvesField w r g → f ≡ g }
    ensures method { (w : List Shape) (r : MethodRef) (m n : MethodId) → IsWorld w → ResolvesMethod w r m → ResolvesMethod w r n → m ≡ n }
    ensures interface_method { (w : List Shape) (r : MethodRef) (m n : MethodId) → IsWorld w → ResolvesInterfaceMethod w r m → ResolvesInterfaceMethod w r n → m ≡ n }
{}

/// In a world a call selects one method at most (JVMS 6.5).
pub fn calls_select_one()
    ensures by_virtual { (w : List Shape) (c : ℕ) (resolved m n : MethodId) → IsWorld w → SelectsVirtual w c resolved m → SelectsVirtual w c resolved n → m ≡ n }
    ensures by_interface { (w : List Shape) (c : ℕ) (resolved m n : MethodId) → IsWorld w → SelectsInterface w c resolved m → SelectsInterface w c resolved n → m ≡ n }
    ensures by_special { (w : List Shape) (from : ℕ) (r : MethodRef) (resolved m n : MethodId) → IsWorld w
        → SelectsSpecial w from r resolved m → SelectsSpecial w from r resolved n → m ≡ n }
{}
