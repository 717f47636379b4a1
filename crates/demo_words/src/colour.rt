/// Whether the output has colours.
#[derive(Clone, Copy, Debug, PartialEq, Eq)]
pub enum Looks {
    Plain,
    Coloured,
}

/// The meaning of a line, which its colour shows.
#[derive(Clone, Copy, Debug, PartialEq, Eq)]
pub enum Tone {
    /// A request is served at once.
    Served,
    /// A request waits.
    Waits,
    /// A request goes next.
    Next,
    /// Something went wrong.
    Wrong,
    /// A title above other lines.
    Title,
}

impl Looks {
    /// Returns the text before a line of this tone.
    pub fn before(self, tone: Tone) -> &'static str {
        match (self, tone) {
            (Looks::Plain, _) => "",
            (Looks::Coloured, Tone::Served) => "\x1b[32m",
            (Looks::Coloured, Tone::Waits) => "\x1b[33m",
            (Looks::Coloured, Tone::Next) => "\x1b[1;36m",
            (Looks::Coloured, Tone::Wrong) => "\x1b[1;31m",
            (Looks::Coloured, Tone::Title) => "\x1b[1m",
        }
    }

    /// Returns the text after it.
    pub fn after(self) -> &'static str {
        match self {
            Looks::Plain => "",
            Looks::Coloured => "\x1b[0m",
        }
    }
}
