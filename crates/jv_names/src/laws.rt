//! Laws of the definitions that the contracts cite. Each function does nothing, and its contract is the
//! law.

ghost use Rattle.std.specs.Prelude.{◌≡◌, ℕ, List};
ghost use Rattle.jv_types.specs.declared.desc.RefType.{RefType};
ghost use Rattle.jv_types.specs.declared.references.FieldRef.{FieldRef};
ghost use Rattle.jv_types.specs.declared.references.MethodRef.{MethodRef};
ghost use Rattle.jv_pool.specs.declared.item.PoolItem.{PoolItem};
ghost use Rattle.jv_names.specs.Naming.{IsTypeText, type_text, NamesType, NamesClass, NamesField, NamesMethod};

/// An index of a pool names at most one class, one class or array type, one field and one method.
pub fn indices_name_one()
    ensures classes { (pool : List PoolItem) (index : ℕ) (a b : List ℕ) → NamesClass pool index a → NamesClass pool index b → a ≡ b }
    ensures types { (pool : List PoolItem) (index : ℕ) (a b : RefType) → NamesType pool index a → NamesType pool index b → a ≡ b }
    ensures fields { (pool : List PoolItem) (index : ℕ) (a b : FieldRef) → NamesField pool index a → NamesField pool index b → a ≡ b }
    ensures methods { (pool : List PoolItem) (index : ℕ) (a b : MethodRef) → NamesMethod pool index a → NamesMethod pool index b → a ≡ b }
{}

/// A class or array type is named by its own text alone, and a text names one at most.
pub fn types_have_one_text()
    ensures spelling { (text : List ℕ) (type : RefType) → IsTypeText text type → text ≡ type_text type }
    ensures one { (text : List ℕ) (a b : RefType) → IsTypeText text a → IsTypeText text b → a ≡ b }
{}
