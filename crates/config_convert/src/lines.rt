//! The lines of HAProxy's configurations, with their quotes.

use proxy_words::Words;
use std::alloc::{AllocError, Global};

/// A line with words.
#[derive(Debug, Drop)]
pub(crate) struct Line {
    pub(crate) number: usize,
    /// The line as it stands, without the blanks before it.
    pub(crate) raw: Vec<u8>,
    /// Its words without quotes.
    pub(crate) words: Vec<Vec<u8>>,
    /// A word needs quotes, or stands for a variable.
    pub(crate) is_odd: bool,
}

impl Line {
    /// Makes a line of these bytes; `None` where it has no words.
    pub(crate) fn new(
        alloc: Global,
        number: usize,
        bytes: &[u8],
    ) -> Result<Option<Line>, AllocError> {
        let mut splitter = Splitter::new(alloc);
        for byte in bytes {
            if !splitter.take(alloc, *byte)? {
                break;
            }
        }
        let (words, is_odd) = splitter.finish(alloc)?;
        if words.is_empty() {
            return Ok(None);
        }
        Ok(Some(Line {
            number,
            raw: Vec::from_slice(alloc, bytes.trim_ascii())?,
            words,
            is_odd,
        }))
    }

    /// Returns a copy of the line.
    pub(crate) fn copied(&self, alloc: Global) -> Result<Line, AllocError> {
        Ok(Line {
            number: self.number,
            raw: Vec::from_slice(alloc, self.raw.as_slice())?,
            words: copied(alloc, self.words.as_slice())?,
            is_odd: self.is_odd,
        })
    }

    /// Returns the word with this index; an empty one where there is none.
    pub(crate) fn word(&self, index: usize) -> &[u8] {
        word_of(self.words.as_slice(), index)
    }

    /// Returns the words from this index on.
    pub(crate) fn behind(&self, index: usize) -> &[Vec<u8>] {
        self.words.get(index..).unwrap_or(&[])
    }
}

/// Returns the word with an index; an empty one where there is none.
pub(crate) fn word_of(words: &[Vec<u8>], index: usize) -> &[u8] {
    match words.get(index) {
        Some(word) => word.as_slice(),
        None => b"".as_slice(),
    }
}

/// Copies the words.
pub(crate) fn copied(alloc: Global, words: &[Vec<u8>]) -> Result<Vec<Vec<u8>>, AllocError> {
    let mut all = Vec::new(alloc);
    for word in words {
        all.push(Vec::from_slice(alloc, word.as_slice())?)?;
    }
    Ok(all)
}

/// Returns the words of a text without quotes.
pub(crate) fn words_of(alloc: Global, text: &[u8]) -> Result<Vec<Vec<u8>>, AllocError> {
    let mut all = Vec::new(alloc);
    for word in Words::new(text) {
        all.push(Vec::from_slice(alloc, word)?)?;
    }
    Ok(all)
}

/// The state of the splitter before the next byte.
#[derive(Clone, Copy, Debug, PartialEq, Eq)]
enum State {
    Plain,
    Double,
    Single,
    /// After a backslash; the flag says whether it stands between double quotes.
    Escaped(bool),
}

/// Cuts a line into words.
#[derive(Drop)]
struct Splitter {
    words: Vec<Vec<u8>>,
    word: Vec<u8>,
    state: State,
    /// A word has begun.
    within: bool,
    is_odd: bool,
}

impl Splitter {
    fn new(alloc: Global) -> Splitter {
        Splitter {
            words: Vec::new(alloc),
            word: Vec::new(alloc),
            state: State::Plain,
            within: false,
            is_odd: false,
        }
    }

    // Takes a byte. Says whether the line goes on.
    fn take(&mut self, alloc: Global, byte: u8) -> Result<bool, AllocError> {
        match (self.state, byte) {
            (State::Plain, b' ' | b'\t') => self.end_word(alloc)?,
            (State::Plain, b'#') => return Ok(false),
            (State::Plain, b'"') => self.enter(State::Double),
            (State::Plain, b'\'') => self.enter(State::Single),
            (State::Plain, b'\\') => self.enter(State::Escaped(false)),
            (State::Double, b'"') | (State::Single, b'\'') => self.state = State::Plain,
            (State::Double, b'\\') => self.enter(State::Escaped(true)),
            (State::Plain, _) => self.push(byte)?,
            (State::Escaped(double), _) => {
                self.is_odd = true;
                self.state = if double { State::Double } else { State::Plain };
                self.push(byte)?;
            }
            (State::Double | State::Single, _) => {
                self.is_odd = self.is_odd || needs_quotes(byte);
                self.push(byte)?;
            }
        }
        Ok(true)
    }

    fn enter(&mut self, state: State) {
        self.state = state;
        self.within = true;
    }

    fn push(&mut self, byte: u8) -> Result<(), AllocError> {
        self.within = true;
        self.word.push(byte)?;
        Ok(())
    }

    fn end_word(&mut self, alloc: Global) -> Result<(), AllocError> {
        if !self.within {
            return Ok(());
        }
        self.is_odd = self.is_odd || self.word.is_empty();
        self.within = false;
        let word = Vec::from_slice(alloc, self.word.as_slice())?;
        self.word.clear();
        self.words.push(word)?;
        Ok(())
    }

    fn finish(mut self, alloc: Global) -> Result<(Vec<Vec<u8>>, bool), AllocError> {
        let is_open = self.state != State::Plain;
        self.end_word(alloc)?;
        let Splitter {
            words,
            word: _,
            state: _,
            within: _,
            is_odd,
        } = self;
        Ok((words, is_odd || is_open))
    }
}

// Says whether a quoted byte has another meaning without quotes.
fn needs_quotes(byte: u8) -> bool {
    matches!(byte, b' ' | b'\t' | b'#' | b'"' | b'\'' | b'\\' | b'$')
}
