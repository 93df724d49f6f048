//! Lists that grow, and say so where memory was refused.
ghost use Rattle.std.specs.Prelude.{◌≡◌, ◌++◌, ◌∷◌, [], OnOk, OnErr, IfOk};

use crate::NoMemory;
use std::alloc::Global;

/// Puts an item at the end of a list. `NoMemory` where there was none for it; the item is dropped then.
pub fn push<T: Drop>(to: &mut Vec<T>, item: T) -> Result<(), NoMemory>
    ensures ok { OnOk result (to.new.items ≡ to.old.items ++ item ∷ []) }
    ensures err { OnErr result (to.new.items ≡ to.old.items) }
{
    to.push(item)?;
    Ok(())
}

/// Puts copies of items at the end of a list. After `NoMemory` the list is as it was.
pub fn extend<T: Copy>(to: &mut Vec<T>, items: &[T]) -> Result<(), NoMemory>
    ensures ok { OnOk result (to.new.items ≡ to.old.items ++ items.now) }
    ensures err { OnErr result (to.new.items ≡ to.old.items) }
{
    to.extend_from_slice(items)?;
    Ok(())
}

/// A copy of a list.
pub fn copied<T: Copy>(alloc: Global, items: &[T]) -> Result<Vec<T>, NoMemory>
    ensures { IfOk result (λ copy. copy.items ≡ items.now) }
{
    let copy = Vec::from_slice(alloc, items)?;
    Ok(copy)
}
