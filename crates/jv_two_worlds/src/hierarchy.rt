//! Laws of classes and their supertypes. Each function does nothing, and its contract is the law.

ghost use Rattle.std.specs.Prelude.{◌≡◌, ◌↔◌, ℕ, ◌<◌, List, length};
ghost use Rattle.jv_types.specs.declared.desc.RefType.{RefType};
ghost use Rattle.jv_types.specs.declared.shapes.Shape.{Shape};
ghost use Rattle.jv_world.specs.Instances.{IsInstanceOf, IsInterfaceNamed, IsSubNamed};
ghost use Rattle.jv_world.specs.Worlds.{HasSuperclass, IsNamed, IsSubclass, ProperSub, Sub};
ghost use Rattle.jv_resolve.specs.Members.{IsInterfaceClass};
ghost use Rattle.jv_two_worlds.specs.Agreeing.{Agree};
ghost use Rattle.jv_two_worlds.specs.Renumbering.{StandsIn};
ghost use Rattle.jv_two_worlds.specs.Types.{EndsIn};

/// Two classes have two numbers in the other world too, and each has its name and its kind there (JVMS 4.1).
pub fn classes_agree()
    ensures apart { (w v : List Shape) (to : ℕ → ℕ) (c d : ℕ) → StandsIn w v to → c < length w → d < length w → to c ≡ to d → c ≡ d }
    ensures name { (w v : List Shape) (to : ℕ → ℕ) (c : ℕ) (name : List ℕ) → StandsIn w v to → c < length w → IsNamed w c name ↔ IsNamed v (to c) name }
    ensures kind { (w v : List Shape) (to : ℕ → ℕ) (c : ℕ) → StandsIn w v to → c < length w → IsInterfaceClass w c ↔ IsInterfaceClass v (to c) }
{}

/// The supertypes of a class are the same in both worlds (JLS 4.10.2).
pub fn subtypes_agree()
    ensures above { (w v : List Shape) (to : ℕ → ℕ) (c : ℕ) → StandsIn w v to → c < length w → Agree to (Sub w c) (Sub v (to c)) }
    ensures properly_above { (w v : List Shape) (to : ℕ → ℕ) (c : ℕ) → StandsIn w v to → c < length w → Agree to (ProperSub w c) (ProperSub v (to c)) }
    ensures both { (w v : List Shape) (to : ℕ → ℕ) (c d : ℕ) → StandsIn w v to → c < length w → d < length w → Sub w c d ↔ Sub v (to c) (to d) }
{}

/// The superclasses of a class are the same in both worlds (JVMS 4.1).
pub fn superclasses_agree()
    ensures direct { (w v : List Shape) (to : ℕ → ℕ) (c : ℕ) → StandsIn w v to → c < length w → Agree to (HasSuperclass w c) (HasSuperclass v (to c)) }
    ensures above { (w v : List Shape) (to : ℕ → ℕ) (c : ℕ) → StandsIn w v to → c < length w → Agree to (IsSubclass w c) (IsSubclass v (to c)) }
    ensures both { (w v : List Shape) (to : ℕ → ℕ) (c d : ℕ) → StandsIn w v to → c < length w → d < length w → IsSubclass w c d ↔ IsSubclass v (to c) (to d) }
{}

/// Where the class inside a type is one of the world, the type is an instance of the same types in both worlds (JLS
/// 4.10.3); so it is with names.
pub fn instances_agree()
    ensures by_name { (w v : List Shape) (to : ℕ → ℕ) (c : ℕ) (name of : List ℕ) → StandsIn w v to → IsNamed w c name → IsSubNamed w name of ↔ IsSubNamed v name of }
    ensures interface { (w v : List Shape) (to : ℕ → ℕ) (c : ℕ) (name : List ℕ) → StandsIn w v to → IsNamed w c name → IsInterfaceNamed w name ↔ IsInterfaceNamed v name }
    ensures by_type { (w v : List Shape) (to : ℕ → ℕ) (type of : RefType) → StandsIn w v to → ((name : List ℕ) → EndsIn type name → (c : ℕ) × IsNamed w c name)
        → IsInstanceOf w type of ↔ IsInstanceOf v type of }
{}
