ghost use Rattle.std.specs.Prelude.{◌≡◌, ◌<◌, IfOk, None, length, replicate, Some, slice_get, slice_set};

use std::alloc::{AllocError, Global};

/// Makes this number of empty cells. `O(n)`.
pub(crate) fn empty<T: Drop>(alloc: Global, cells: usize) -> Result<Vec<Option<T>>, AllocError>
    ensures { IfOk result (λ made. made.items ≡ replicate cells None) }
{
    let mut made = Vec::with_capacity(alloc, cells)?;
    for cell in 0..cells {
        made.push_reserved(None);
    }
    Ok(made)
}

/// Replaces the content of a cell.
pub(crate) fn put<T: Drop>(cells: &mut Vec<Option<T>>, at: usize, item: Option<T>)
    requires { at < length cells.old.items }
    ensures { cells.new.items ≡ slice_set cells.old.items at item }
{
    cells[at] = item;
}

/// Takes the content out of a cell.
pub(crate) fn take<T: Drop>(cells: &mut Vec<Option<T>>, at: usize) -> Option<T>
    requires { at < length cells.old.items }
    ensures taken { slice_get cells.old.items at ≡ Some result }
    ensures emptied { cells.new.items ≡ slice_set cells.old.items at None }
{
    cells[at].take()
}
