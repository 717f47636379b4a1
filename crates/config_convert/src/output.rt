//! The output of a conversion: the lines of one `listen` with comments, and the changes.

use crate::acls::Names;
use crate::lines::Line;
use crate::notes::{Note, Weight, add_note};
use proxy_config::ConfigFault;
use proxy_words::Words;
use std::alloc::{AllocError, Global};

/// A line of the output.
#[derive(Debug, Drop)]
pub(crate) struct Written {
    pub(crate) bytes: Vec<u8>,
    /// The number of the input line that it comes from; 0 where it comes from none.
    pub(crate) source: usize,
}

/// The lines so far, and the changes that they make.
#[derive(Drop)]
pub(crate) struct Output {
    pub(crate) alloc: Global,
    pub(crate) lines: Vec<Written>,
    pub(crate) notes: Vec<Note>,
    /// The ACL names in use.
    pub(crate) names: Names,
}

const NOT_TAKEN: &str = "dueproxy check doesn't take it.";

impl Output {
    pub(crate) fn new(alloc: Global) -> Output {
        Output {
            alloc,
            lines: Vec::new(alloc),
            notes: Vec::new(alloc),
            names: Names::new(alloc),
        }
    }

    /// Returns the number of bytes of all lines with their ends.
    pub(crate) fn length(&self) -> usize {
        self.lines.iter().fold(0usize, |sum, line| {
            sum.saturating_add(line.bytes.len()).saturating_add(1)
        })
    }

    /// Writes the parts as one line.
    pub(crate) fn add(&mut self, source: usize, parts: &[&[u8]]) -> Result<(), AllocError> {
        let mut bytes = Vec::new(self.alloc);
        for part in parts {
            bytes.extend_from_slice(part)?;
        }
        self.lines.push(Written { bytes, source })?;
        Ok(())
    }

    /// Writes the words as a line of the `listen`.
    pub(crate) fn keep(&mut self, source: usize, words: &[Vec<u8>]) -> Result<(), AllocError> {
        let mut bytes = Vec::from_slice(self.alloc, b"   ")?;
        for word in words {
            bytes.push(b' ')?;
            bytes.extend_from_slice(word.as_slice())?;
        }
        self.lines.push(Written { bytes, source })?;
        Ok(())
    }

    /// Writes an input line as a comment, with the reason.
    pub(crate) fn comment(&mut self, line: &Line, reason: &str) -> Result<(), AllocError> {
        self.add(line.number, &[b"    # ".as_slice(), line.raw.as_slice()])?;
        self.add(line.number, &[b"    #   ".as_slice(), reason.as_bytes()])
    }

    /// Writes a line as a comment, and notes the change under its first `label` words.
    pub(crate) fn lose(
        &mut self,
        line: &Line,
        label: usize,
        weight: Option<Weight>,
        reason: &'static str,
    ) -> Result<(), AllocError> {
        self.comment(line, reason)?;
        match weight {
            Some(weight) => self.note(line, label, weight, reason),
            None => Ok(()),
        }
    }

    /// Notes the change that a line makes, under its first `label` words.
    pub(crate) fn note(
        &mut self,
        line: &Line,
        label: usize,
        weight: Weight,
        reason: &'static str,
    ) -> Result<(), AllocError> {
        let label = label_of(self.alloc, line, label)?;
        add_note(
            self.alloc,
            &mut self.notes,
            weight,
            (line.number, label.as_str()),
            reason,
        )
    }

    /// Turns the lines that begin with these words into comments.
    pub(crate) fn take_back(&mut self, words: &[Vec<u8>]) -> Result<(), AllocError> {
        for line in self.lines.iter_mut() {
            if begins_with(line.bytes.as_slice(), words) {
                line.bytes = commented(self.alloc, line.bytes.as_slice())?;
            }
        }
        Ok(())
    }

    /// Turns the line that has a fault into a comment, for an ACL all of its lines, and notes that.
    pub(crate) fn leave_out(&mut self, fault: ConfigFault) -> Result<(), AllocError> {
        let at = (fault.line as usize).saturating_sub(1);
        let Some(line) = self.lines.get(at) else {
            return Ok(());
        };
        let source = line.source;
        let words = front_of(self.alloc, line.bytes.as_slice())?;
        let mut label = String::new(self.alloc);
        for word in words.iter() {
            label.push_str(if label.is_empty() { "" } else { " " })?;
            push_shown(&mut label, word.as_slice())?;
        }
        if words
            .first()
            .is_some_and(|word| word.as_slice() == b"acl".as_slice())
        {
            self.take_back(&words)?;
        }
        self.leave_out_at(at)?;
        add_note(
            self.alloc,
            &mut self.notes,
            Weight::Grave,
            (source, label.as_str()),
            NOT_TAKEN,
        )
    }

    fn leave_out_at(&mut self, at: usize) -> Result<(), AllocError> {
        if let Some(line) = self.lines.get_mut(at) {
            if !line.bytes.trim_ascii_start().starts_with(b"#".as_slice()) {
                line.bytes = commented(self.alloc, line.bytes.as_slice())?;
            }
        }
        Ok(())
    }
}

// Returns the first two words of a line.
fn front_of(alloc: Global, line: &[u8]) -> Result<Vec<Vec<u8>>, AllocError> {
    let mut all = Vec::new(alloc);
    for word in Words::new(line).take(2) {
        all.push(Vec::from_slice(alloc, word)?)?;
    }
    Ok(all)
}

fn begins_with(line: &[u8], words: &[Vec<u8>]) -> bool {
    let mut left = Words::new(line);
    words.iter().all(|word| left.next().is_some_and(|other| other == word.as_slice()))
}

fn commented(alloc: Global, line: &[u8]) -> Result<Vec<u8>, AllocError> {
    let mut bytes = Vec::from_slice(alloc, b"    # ")?;
    bytes.extend_from_slice(line.trim_ascii_start())?;
    Ok(bytes)
}

// Returns the first words of a line in printable form.
fn label_of(alloc: Global, line: &Line, count: usize) -> Result<String, AllocError> {
    let mut text = String::new(alloc);
    for word in line.words.iter().take(count) {
        if !text.is_empty() {
            text.push(' ')?;
        }
        push_shown(&mut text, word.as_slice())?;
    }
    Ok(text)
}

/// Writes bytes in printable form.
pub(crate) fn push_shown(text: &mut String, bytes: &[u8]) -> Result<(), AllocError> {
    for byte in bytes {
        text.push(match *byte {
            b' '..=b'~' => char::from(*byte),
            _ => '?',
        })?;
    }
    Ok(())
}
