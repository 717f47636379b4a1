ghost use Rattle.std.specs.Prelude.{◌≡◌, vec_len, IfOk};

use crate::parked::Parked;
use std::alloc::{AllocError, Global};
use std::sync::Mutex;

/// Makes an empty cell for each place. Fails only where memory is refused.
pub fn empty_cells(alloc: Global, places: usize) -> Result<Vec<Mutex<Option<Parked>>>, AllocError>
    ensures { IfOk result (λ made. vec_len made ≡ places) }
{
    let mut cells = Vec::with_capacity(alloc, places)?;
    for _ in 0..places {
        cells.push_reserved(Mutex::new(None));
    }
    Ok(cells)
}

/// Ends the presence of all clients that still wait at their places.
pub(crate) fn leave_all(cells: Vec<Mutex<Option<Parked>>>) {
    let mut cells = cells;
    while let Some(cell) = cells.pop() {
        match cell.into_inner() {
            None => {}
            Some(parked) => parked.leave().end(),
        }
    }
    cells.destroy_empty();
}
