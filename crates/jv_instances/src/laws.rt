//! Instances by names and by numbers. The function does nothing, and its contract is the law.

ghost use Rattle.std.specs.Prelude.{◌↔◌, ℕ, List};
ghost use Rattle.jv_types.specs.declared.desc.RefType.{RefType};
ghost use Rattle.jv_types.specs.declared.label.LibBase.{LibBase};
ghost use Rattle.jv_types.specs.declared.shapes.Shape.{Shape};
ghost use Rattle.jv_world.specs.Instances.{IsInstanceInDims, IsInstanceOf};
ghost use Rattle.jv_world.specs.Worlds.{HaveDistinctNames};
ghost use Rattle.jv_instances.specs.TypesInDims.{IsTypeInDims};

/// Where no two classes have one name, a type that is given by a base and its dimensions is an instance of another
/// exactly where it is so of the two reference types, whose classes are given by their names (JVMS 4.10.1.2, JLS
/// 4.10.3).
pub fn instances_go_by_dimensions()
    ensures { (w : List Shape) (base of : LibBase) (dims of_dims : ℕ) (type other : RefType) → HaveDistinctNames w
        → IsTypeInDims w base dims type → IsTypeInDims w of of_dims other → IsInstanceInDims w base dims of of_dims ↔ IsInstanceOf w type other }
{}
