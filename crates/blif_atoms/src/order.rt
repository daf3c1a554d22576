ghost use Rattle.std.specs.Prelude.{◌≡◌, IfOk, reverse};

use sqlite_items::Items;
use std::alloc::{AllocError, Global};

/// The items from the last to the first, to be taken away in their order from the end.
pub(crate) fn reversed<T: Drop>(alloc: Global, items: Items<T>) -> Result<Vec<T>, AllocError>
    ensures { IfOk result (λ turned. turned.items ≡ reverse items) }
{
    let mut left = items;
    let mut turned = Vec::with_capacity(alloc, left.len())?;
    'turn: while let Some(item) = left.pop() {
        turned.push(item)?;
    }
    Ok(turned)
}
