ghost use Rattle.std.specs.Prelude.{◌≡◌, ◌<◌, ◌^◌};

/// The most cells of a table.
pub const MOST_CELLS: usize = 1 << 20;

/// The most times that a cell is given out.
pub(crate) const GENERATIONS: u64 = 1 << 40;

/// The name of a value in a cell, and of none that is put there before or after it.
#[derive(Clone, Copy, Debug, PartialEq, Eq)]
pub struct Token {
    pub(crate) index: usize,
    pub(crate) generation: u64,
    ghost index_fits: { index < 2 ^ 20 },
    ghost generation_fits: { generation < 2 ^ 40 },
}

/// The cell of a token whose value is lent out. It has no `Drop`: it has to be filled again, or closed.
pub struct Hole {
    pub(crate) token: Token,
}

impl Token {
    /// Returns the number of its cell.
    pub fn index(&self) -> usize
        ensures { result ≡ self.now.index }
    {
        self.index
    }
}

impl Hole {
    /// Returns its token.
    pub fn token(&self) -> Token
        ensures { result ≡ self.now.token }
    {
        self.token
    }
}
