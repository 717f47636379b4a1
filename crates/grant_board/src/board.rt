use crate::plays::Order;
use crate::view::{Plan, View};
use atomic_table::Table;
use std::alloc::Global;
use std::marker::{Brand, Model};

/// A table of words that threads share: one for each place, and after them one for each server.
/// Contracts see the board's unique name.
#[derive(Drop)]
pub struct Board {
    pub(crate) table: Table<(), View, Plan, Order, Global>,
}

impl Model for Board {
    ghost use Rattle.atomic_table.specs.Seated.{TableId};
    ghost use Rattle.std.specs.Prelude.{◌≡◌};

    ghost Value = { TableId };

    ghost view = { λ b. b.table.shared.table_id };

    ghost invariant = { λ b. b.table.shared.table_id.slots ≡ 0 };
}

/// The name of one board and its terms, for generic types that hold its seats. It has no functions:
/// whoever opens a board calls a function that is generic in the name, and the name stands for that
/// board in the proof of the call.
pub trait BoardName {
    ghost use Rattle.atomic_table.specs.Seated.{TableId};
    ghost use Rattle.grant_board.specs.Views.{Terms};

    ghost board: { TableId };

    ghost terms: { Terms };
}

impl BoardName for Brand {
    ghost use Rattle.grant_board.specs.Names.{no_board, no_terms};

    ghost board = { no_board };

    ghost terms = { no_terms };
}
