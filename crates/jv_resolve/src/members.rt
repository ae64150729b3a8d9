ghost use Rattle.std.specs.Prelude.{◌≡◌, ℕ, ◌<◌, ◌↔◌, length, IsTrue, IfSome, IfNone};
ghost use Rattle.jv_resolve.specs.Members.{IsMethodCalled, IsMethod, IsField, HasMethod, HasField, DeclaresMethod, DeclaresField};
ghost use Rattle.jv_world.specs.Worlds.{IsWorld};
ghost use Rattle.jv_types.specs.declared.ids.MethodId.{MethodId};
ghost use Rattle.jv_types.specs.declared.ids.FieldId.{FieldId};

use jv_types::{ClassId, Desc, FieldId, FieldShape, MethodDesc, MethodId, MethodShape, Name};
use jv_world::World;

/// Whether a method has this name and descriptor.
pub fn is_method_called(method: &MethodShape, name: &Name, desc: &MethodDesc) -> bool
    ensures { IsTrue result ↔ IsMethodCalled name.now desc.now method.now }
{
    method.name == *name && method.desc == *desc
}

/// The method that the class declares with this name and descriptor, if it declares one.
pub fn declared_method(
    world: &World,
    c: ClassId,
    name: &Name,
    desc: &MethodDesc,
) -> Option<MethodId>
    requires { c.number < length world.now }
    ensures found { IfSome result (λ m. (m.class ≡ c) × DeclaresMethod world.now name.now desc.now m) }
    ensures none { IfNone result ((m : MethodId) → m.class.number ≡ c.number → ¬ DeclaresMethod world.now name.now desc.now m) }
    ensures world { IsWorld world.now }
{
    let index = world.method_place(c, name, desc)?;
    Some(MethodId { class: c, index })
}

/// The field that the class declares with this name and type, if it declares one.
pub fn declared_field(world: &World, c: ClassId, name: &Name, desc: &Desc) -> Option<FieldId>
    requires { c.number < length world.now }
    ensures found { IfSome result (λ f. (f.class ≡ c) × DeclaresField world.now name.now desc.now f) }
    ensures none { IfNone result ((f : FieldId) → f.class.number ≡ c.number → ¬ DeclaresField world.now name.now desc.now f) }
{
    let index = world.field_place(c, name, desc)?;
    Some(FieldId { class: c, index })
}

/// The shape of a method.
pub fn method_shape(world: &World, m: MethodId) -> &MethodShape
    requires { HasMethod world.now m }
    ensures { IsMethod world.now m result.now }
{
    &world.shape(m.class).methods.as_slice()[m.index as usize]
}

/// The shape of a field.
pub fn field_shape(world: &World, f: FieldId) -> &FieldShape
    requires { HasField world.now f }
    ensures { IsField world.now f result.now }
{
    &world.shape(f.class).fields.as_slice()[f.index as usize]
}
