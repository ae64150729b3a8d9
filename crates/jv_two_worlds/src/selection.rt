//! Laws of overriding and of what a call runs. Each function does nothing, and its contract is the law.

ghost use Rattle.std.specs.Prelude.{◌↔◌, ℕ, ◌<◌, List, length};
ghost use Rattle.jv_types.specs.declared.ids.MethodId.{MethodId};
ghost use Rattle.jv_types.specs.declared.references.MethodRef.{MethodRef};
ghost use Rattle.jv_types.specs.declared.shapes.Shape.{Shape};
ghost use Rattle.jv_resolve.specs.Overriding.{Overrides, OverridesDirectly};
ghost use Rattle.jv_resolve.specs.References.{BeginsAt};
ghost use Rattle.jv_resolve.specs.Selecting.{SelectsInterface, SelectsSpecial, SelectsVirtual};
ghost use Rattle.jv_two_worlds.specs.Agreeing.{Agree};
ghost use Rattle.jv_two_worlds.specs.Renumbering.{StandsIn, method_to};

/// A method overrides the same methods in both worlds (JVMS 5.4.5).
pub fn overriding_agrees()
    ensures direct { (w v : List Shape) (to : ℕ → ℕ) (m : MethodId) → StandsIn w v to → m.class.number < length w
        → Agree (method_to to) (OverridesDirectly w m) (OverridesDirectly v (method_to to m)) }
    ensures overridden { (w v : List Shape) (to : ℕ → ℕ) (m : MethodId) → StandsIn w v to → m.class.number < length w → Agree (method_to to) (Overrides w m) (Overrides v (method_to to m)) }
    ensures both { (w v : List Shape) (to : ℕ → ℕ) (m n : MethodId) → StandsIn w v to → m.class.number < length w → n.class.number < length w
        → Overrides w m n ↔ Overrides v (method_to to m) (method_to to n) }
{}

/// A call runs the same method in both worlds, or none in both (JVMS 6.5). For invokespecial the class that the
/// reference names is one of the world; for an array it is Object.
pub fn calls_select_alike()
    ensures by_virtual { (w v : List Shape) (to : ℕ → ℕ) (c : ℕ) (resolved : MethodId) → StandsIn w v to → c < length w → resolved.class.number < length w
        → Agree (method_to to) (SelectsVirtual w c resolved) (SelectsVirtual v (to c) (method_to to resolved)) }
    ensures by_interface { (w v : List Shape) (to : ℕ → ℕ) (c : ℕ) (resolved : MethodId) → StandsIn w v to → c < length w → resolved.class.number < length w
        → Agree (method_to to) (SelectsInterface w c resolved) (SelectsInterface v (to c) (method_to to resolved)) }
    ensures by_special { (w v : List Shape) (to : ℕ → ℕ) (from c : ℕ) (r : MethodRef) (resolved : MethodId) → StandsIn w v to → from < length w → resolved.class.number < length w → BeginsAt w r.class c
        → Agree (method_to to) (SelectsSpecial w from r resolved) (SelectsSpecial v (to from) r (method_to to resolved)) }
{}
