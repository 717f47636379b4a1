//! The changes for clients or servers.

use std::alloc::{AllocError, Global};

/// The weight of a change.
#[derive(Clone, Copy, Debug, PartialEq, Eq)]
pub enum Weight {
    /// A request is answered that wasn't before, or isn't that was; it is answered by another
    /// server; or it is sent in clear text.
    Grave,
    /// Clients or servers see a difference, or a client gets another server.
    Marked,
    /// A difference in time, number or wording.
    Slight,
}

/// A change and the lines of the file that cause it; no line where the file says nothing of it.
#[derive(Debug, Drop)]
pub struct Note {
    pub weight: Weight,
    pub lines: Vec<usize>,
    /// The words that the note is about.
    pub label: String,
    pub reason: &'static str,
}

/// Writes a note as a line of text.
pub fn push_note(text: &mut String, note: &Note) -> Result<(), AllocError> {
    for (at, line) in note.lines.iter().enumerate() {
        let last = at.saturating_add(1) == note.lines.len();
        let before = match (at, last) {
            (0, true) => "line ",
            (0, false) => "lines ",
            (_, true) => " and ",
            (_, false) => ", ",
        };
        write!(text, "{before}{line}")?;
    }
    if !note.lines.is_empty() {
        text.push_str(": ")?;
    }
    text.push_str(note.label.as_str())?;
    text.push_str(": ")?;
    text.push_str(note.reason)?;
    text.push('\n')
}

/// Adds a note after those of the same weight. Where there is a note with the same words and
/// reason, adds the lines to that one.
pub(crate) fn add_note(
    alloc: Global,
    notes: &mut Vec<Note>,
    weight: Weight,
    about: (usize, &str),
    reason: &'static str,
) -> Result<(), AllocError> {
    let (line, label) = about;
    let same = notes.iter_mut().find(|note| note.label.as_str() == label && note.reason == reason);
    if let Some(note) = same {
        if line != 0 {
            note.lines.push(line)?;
        }
        return Ok(());
    }
    let mut lines = Vec::new(alloc);
    if line != 0 {
        lines.push(line)?;
    }
    let note = Note {
        weight,
        lines,
        label: String::from_str(alloc, label)?,
        reason,
    };
    let behind = notes
        .iter()
        .position(|other| rank(other.weight) > rank(weight))
        .unwrap_or(notes.len());
    notes.insert(behind, note)?;
    Ok(())
}

fn rank(weight: Weight) -> u8 {
    match weight {
        Weight::Grave => 0,
        Weight::Marked => 1,
        Weight::Slight => 2,
    }
}
