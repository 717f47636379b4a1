//! The sections of HAProxy's configurations.

use crate::lines::{Line, word_of};
use crate::settling::Unconverted;
use proxy_words::Lines;
use std::alloc::{AllocError, Global};

/// The kind of a section.
#[derive(Clone, Copy, Debug, PartialEq, Eq)]
pub(crate) enum Kind {
    Global,
    Defaults,
    Frontend,
    Backend,
    Listen,
    Other,
}

/// A section.
#[derive(Debug, Drop)]
pub(crate) struct Section {
    pub(crate) kind: Kind,
    pub(crate) head: Line,
    pub(crate) lines: Vec<Line>,
}

impl Section {
    pub(crate) fn name(&self) -> &[u8] {
        self.head.word(1)
    }

    // Returns the name of the `defaults` that the section inherits from.
    fn base(&self) -> Option<&[u8]> {
        let index = self
            .head
            .words
            .iter()
            .position(|word| word.as_slice() == b"from".as_slice())?;
        self.head
            .words
            .get(index.saturating_add(1))
            .map(|word| word.as_slice())
    }

    /// Says whether a line begins with this word.
    pub(crate) fn has(&self, keyword: &[u8]) -> bool {
        self.last(keyword).is_some()
    }

    /// Returns the last line that begins with this word.
    pub(crate) fn last(&self, keyword: &[u8]) -> Option<&Line> {
        self.lines.iter().rev().find(|line| line.word(0) == keyword)
    }

    /// Says whether the section sets an option or takes it back; `None` where it says neither.
    pub(crate) fn wants(&self, option: &[u8]) -> Option<bool> {
        self.lines
            .iter()
            .rev()
            .find_map(|line| is_wish(line, option))
    }
}

/// Returns the sections of a file, in order. Lines before the first one belong to none.
pub(crate) fn sections_of(alloc: Global, bytes: &[u8]) -> Result<Vec<Section>, Unconverted> {
    let mut all: Vec<Section> = Vec::new(alloc);
    for (at, bytes) in Lines::new(bytes).enumerate() {
        let number = at.saturating_add(1);
        if let Some(line) = Line::new(alloc, number, bytes)? {
            if line.word(0).starts_with(b".".as_slice()) {
                return Err(Unconverted::Macro { line: number });
            }
            add_line(alloc, &mut all, line)?;
        }
    }
    Ok(all)
}

fn add_line(alloc: Global, all: &mut Vec<Section>, line: Line) -> Result<(), AllocError> {
    if let Some(kind) = kind_of(line.word(0)) {
        let mut section = Section {
            kind,
            head: line,
            lines: Vec::new(alloc),
        };
        if kind == Kind::Defaults {
            section.lines = base_lines(alloc, all, &section)?;
        }
        all.push(section)?;
    } else if let Some(section) = all.last_mut() {
        section.lines.push(line)?;
    }
    Ok(())
}

// Returns the lines that a `defaults` inherits from the one that it names.
fn base_lines(alloc: Global, all: &[Section], section: &Section) -> Result<Vec<Line>, AllocError> {
    let mut lines = Vec::new(alloc);
    let Some(name) = section.base() else {
        return Ok(lines);
    };
    let base = all.iter().rev().find(|other| other.kind == Kind::Defaults && other.name() == name);
    if let Some(base) = base {
        for line in base.lines.iter() {
            lines.push(line.copied(alloc)?)?;
        }
    }
    Ok(lines)
}

// Says whether a line sets this option or takes it back; `None` for other lines.
fn is_wish(line: &Line, option: &[u8]) -> Option<bool> {
    let keyword = b"option".as_slice();
    if line.word(0) == keyword && line.word(1) == option {
        Some(true)
    } else if line.word(0) == b"no".as_slice()
        && line.word(1) == keyword
        && line.word(2) == option
    {
        Some(false)
    } else {
        None
    }
}

fn kind_of(word: &[u8]) -> Option<Kind> {
    match word {
        b"global" => Some(Kind::Global),
        b"defaults" => Some(Kind::Defaults),
        b"frontend" => Some(Kind::Frontend),
        b"backend" => Some(Kind::Backend),
        b"listen" => Some(Kind::Listen),
        b"peers"
        | b"resolvers"
        | b"userlist"
        | b"cache"
        | b"program"
        | b"mailers"
        | b"ring"
        | b"http-errors"
        | b"fcgi-app"
        | b"log-forward" => Some(Kind::Other),
        _ => None,
    }
}

/// Returns the `defaults` that a section inherits from: the one that it names, or else the last one before it.
pub(crate) fn defaults_of(sections: &[Section], at: usize) -> Option<usize> {
    let base = sections.get(at).and_then(|section| section.base());
    sections.iter().take(at).rposition(|section| {
        section.kind == Kind::Defaults && base.is_none_or(|name| section.name() == name)
    })
}

/// Returns the last word after a keyword of a section, or else of its `defaults`.
pub(crate) fn value_of<'a>(sections: &'a [Section], at: usize, keyword: &[u8]) -> Option<&'a Line> {
    let own = sections.get(at).and_then(|section| section.last(keyword));
    if own.is_some() {
        return own;
    }
    let defaults = sections.get(defaults_of(sections, at)?)?;
    defaults.last(keyword)
}

/// Says whether a section that may serve clients has `mode tcp`.
pub(crate) fn is_tcp(sections: &[Section], at: usize) -> bool {
    value_of(sections, at, b"mode".as_slice()).is_some_and(|line| word_of(line.words.as_slice(), 1)
        != b"http".as_slice())
}
