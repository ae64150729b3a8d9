ghost use Rattle.std.specs.Prelude.{ℕ, List, Contains, IfOk};
ghost use Rattle.av_standin_of.specs.Lists.{AreJust};
ghost use Rattle.av_standin_of.specs.Names.{name_order};

use jv_types::Name;
use std::alloc::AllocError;

/// Names in the order of their bytes, each once. Only memory can be wanting.
pub fn names_in_order(names: Vec<Name>) -> Result<Vec<Name>, AllocError>
    ensures { IfOk result (λ made. AreJust name_order (λ (name : List ℕ). name) (Contains names.items) made.items) }
{
    let mut names = names;
    names.sort()?;
    names.dedup();
    Ok(names)
}
