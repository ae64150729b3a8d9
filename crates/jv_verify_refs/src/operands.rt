ghost use Rattle.std.specs.Prelude.{◌≡◌, ℕ, IfSome, IfNone};
ghost use Rattle.jv_types.specs.declared.desc.PrimType.{PrimType as PrimValue};
ghost use Rattle.jv_types.specs.declared.desc.RefType.{RefType as TypeValue};
ghost use Rattle.jv_types.specs.declared.instruction.Arg.TheVariants as args;
ghost use Rattle.jv_types.specs.declared.instruction.Const.{Const as ConstValue};
ghost use Rattle.jv_types.specs.declared.references.FieldRef.{FieldRef as FieldValue};
ghost use Rattle.jv_types.specs.declared.references.MethodRef.{MethodRef as MethodValue};

use jv_types::{Arg, Const, FieldRef, MethodRef, Prim, RefType};

/// The constant of a load.
pub fn constant_of(arg: &Arg) -> Option<&Const>
    ensures found { IfSome result (λ constant. arg.now ≡ args.Constant constant.now) }
    ensures none { IfNone result ((constant : ConstValue) → arg.now ≡ args.Constant constant → ⊥) }
{
    match arg {
        Arg::Constant(constant) => Some(constant),
        _ => None,
    }
}

/// The reference to a field.
pub fn field_of(arg: &Arg) -> Option<&FieldRef>
    ensures found { IfSome result (λ field. arg.now ≡ args.Field field.now) }
    ensures none { IfNone result ((field : FieldValue) → arg.now ≡ args.Field field → ⊥) }
{
    match arg {
        Arg::Field(field) => Some(field),
        _ => None,
    }
}

/// The reference to a method.
pub fn method_of(arg: &Arg) -> Option<&MethodRef>
    ensures found { IfSome result (λ method. arg.now ≡ args.Method method.now) }
    ensures none { IfNone result ((method : MethodValue) → arg.now ≡ args.Method method → ⊥) }
{
    match arg {
        Arg::Method(method) => Some(method),
        _ => None,
    }
}

/// The class, interface or array type.
pub fn type_of(arg: &Arg) -> Option<&RefType>
    ensures found { IfSome result (λ type. arg.now ≡ args.Class type.now) }
    ensures none { IfNone result ((type : TypeValue) → arg.now ≡ args.Class type → ⊥) }
{
    match arg {
        Arg::Class(of) => Some(of),
        _ => None,
    }
}

/// The primitive type of a newarray.
pub fn prim_of(arg: &Arg) -> Option<Prim>
    ensures found { IfSome result (λ prim. arg.now ≡ args.NewPrim prim) }
    ensures none { IfNone result ((prim : PrimValue) → arg.now ≡ args.NewPrim prim → ⊥) }
{
    match arg {
        Arg::NewPrim(prim) => Some(*prim),
        _ => None,
    }
}

/// The array type of a multianewarray, and how many of its dimensions are made.
pub fn multi_of(arg: &Arg) -> Option<(&RefType, u8)>
    ensures found { IfSome result (λ multi. arg.now ≡ args.Multi multi.0.now multi.1) }
    ensures none { IfNone result ((type : TypeValue) (dims : ℕ) → arg.now ≡ args.Multi type dims → ⊥) }
{
    match arg {
        Arg::Multi(of, dims) => Some((of, *dims)),
        _ => None,
    }
}
