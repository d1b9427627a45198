//! Appending to a list.
ghost use Rattle.std.specs.Prelude.{◌≡◌, ◌∷◌, ◌++◌, [], OnOk};

use std::alloc::AllocError;

// Appends an item.
pub(crate) fn push<T: Drop>(list: &mut Vec<T>, next: T) -> Result<(), AllocError>
    ensures { OnOk result (list.new.items ≡ list.old.items ++ next ∷ []) }
{
    list.push(next)?;
    Ok(())
}
