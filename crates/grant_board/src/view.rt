// The subject of the board's rule: the views of seats, and the terms that the board was opened with.
ghost use Rattle.std.specs.Prelude.{List};
ghost use Rattle.std.specs.Borrow.{ftrue};
ghost use Rattle.grant_board.specs.Views.{KeeperPart, RelayView};

use std::marker::Model;

// The view of a seat of the table: at most one keeper's part and some relays' parts. No value of it
// exists at run time.
pub struct View {
    pub ghost keepers: { List KeeperPart },
    pub ghost relays: { List RelayView },
}

impl Model for View {
    ghost also_owns = { λ _. ftrue };
}

// What the table is told once, when it is made.
#[derive(Clone, Copy)]
pub struct Plan {
    pub places: usize,
    pub servers: usize,
    pub limits: [u32; 64],
}
