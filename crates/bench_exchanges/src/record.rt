//! The outcome of a client's connection, as lines of text.

use crate::texts::add_encoded;
use base_verdict::Ending;
use std::alloc::{AllocError, Global};

/// What both sides got, and the verdicts of the passes.
#[derive(Drop)]
pub(crate) struct Record {
    pub(crate) told: Vec<u8>,
    /// The bytes that the servers got: a line for each connection, in order.
    pub(crate) sent: Vec<u8>,
    pub(crate) endings: Vec<Ending>,
    /// The number of whole answers.
    pub(crate) answers: u64,
    /// The stage of its last exchange.
    pub(crate) stage: &'static str,
    /// Memory was refused.
    pub(crate) short: bool,
}

impl Record {
    pub(crate) fn new(alloc: Global) -> Record {
        Record {
            told: Vec::new(alloc),
            sent: Vec::new(alloc),
            endings: Vec::new(alloc),
            answers: 0,
            stage: "over",
            short: false,
        }
    }

    /// Adds the bytes that a connection's server got.
    pub(crate) fn note_sent(&mut self, bytes: &[u8]) {
        if add_line(&mut self.sent, b"sent", bytes).is_err() {
            self.short = true;
        }
    }

    /// Adds the verdict of a pass.
    pub(crate) fn note_ending(&mut self, ending: Ending) {
        if self.endings.push(ending).is_err() {
            self.short = true;
        }
    }

    /// Appends the record's lines to the text.
    pub(crate) fn add_to(&self, alloc: Global, text: &mut Vec<u8>) -> Result<(), AllocError> {
        if self.short {
            return Err(AllocError);
        }
        add_line(text, b"told", self.told.as_slice())?;
        text.extend_from_slice(self.sent.as_slice())?;
        for ending in &self.endings {
            text.extend_from_slice(match ending {
                Ending::Done => b"pass done\n".as_slice(),
                Ending::Failed => b"pass failed\n",
            })?;
        }
        let last = format!(in alloc; "answers {}\nends {}\n", self.answers, self.stage)?;
        text.extend_from_slice(last.as_bytes())
    }
}

fn add_line(text: &mut Vec<u8>, name: &[u8], bytes: &[u8]) -> Result<(), AllocError> {
    text.extend_from_slice(name)?;
    text.extend_from_slice(b" ")?;
    add_encoded(text, bytes)?;
    text.extend_from_slice(b"\n")
}
