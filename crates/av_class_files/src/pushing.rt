ghost use Rattle.std.specs.Prelude.{◌≡◌, [], ◌∷◌, ◌++◌, OnOk};
ghost use Rattle.av_class_files.specs.Steps.{listed};

use std::alloc::AllocError;

/// Puts an element last. Only memory can be wanting.
pub fn push<T: Drop>(items: &mut Vec<T>, item: T) -> Result<(), AllocError>
    ensures { OnOk result (items.new.items ≡ items.old.items ++ item ∷ []) }
{
    Ok(items.push(item)?)
}

/// Puts an element last, if there is one. Only memory can be wanting.
pub fn push_any<T: Drop>(items: &mut Vec<T>, item: Option<T>) -> Result<(), AllocError>
    ensures { OnOk result (items.new.items ≡ items.old.items ++ listed item) }
{
    match item {
        None => Ok(()),
        Some(item) => push(items, item),
    }
}
