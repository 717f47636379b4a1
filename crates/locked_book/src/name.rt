use grant_board::BoardName;
use std::marker::Brand;

/// The name of a board and of the dispatcher beside it: the board's name and terms, and the setup
/// of the dispatcher. It has no functions, as a board's name has none.
pub trait DeskName: BoardName {
    ghost use Rattle.log_entries.specs.declared.setup.Setup.{Setup};

    ghost setup: { Setup };
}

impl DeskName for Brand {
    ghost use Rattle.locked_book.specs.Names.{no_setup};

    ghost setup = { no_setup };
}
