//! The targets of lines.

ghost use Rattle.std.specs.Prelude.{◌≤◌, length};

use std::fs::{OpenFile, OpenOptions};
use std::io::{ErrorKind, Read, Seek, SeekFrom, Write};
use std::os::unix::fs::FileTypeExt;
use std::rt::Files;
use std::{fs, io};

/// The most writes for one text.
const MOST_WRITES: u32 = 1 << 20;

/// The number of bytes that a pipe takes as a whole or not at all.
const PIECE: usize = 4096;

/// The way of lines: to a file with this name, at whose end they are added, or to a standard stream.
#[derive(Debug, Drop)]
pub enum Way {
    File(String),
    Output,
    Errors,
}

/// The open target of lines.
#[derive(Drop)]
pub(crate) enum Target<R: Files> {
    File(Appended<R>),
    Output,
    Errors,
}

/// A file that lines are added to.
#[derive(Drop)]
pub(crate) struct Appended<R: Files> {
    path: String,
    /// `None` where it couldn't be opened.
    file: Option<R::File>,
    /// Its last line isn't complete.
    torn: bool,
}

impl Way {
    /// Returns the file's name; an empty one for a standard stream.
    pub fn name(&self) -> &str {
        match self {
            Way::File(path) => path.as_str(),
            Way::Output | Way::Errors => "",
        }
    }

    /// Checks that a file can be opened; it is created where it doesn't exist.
    pub fn look<R: Files>(&self, rt: &R) -> io::Result<()> {
        if let Way::File(path) = self {
            let _file = open(rt, path.as_str())?;
        }
        Ok(())
    }
}

impl<R: Files> Target<R> {
    pub(crate) fn open(rt: &R, way: Way) -> Target<R> {
        match way {
            Way::Output => Target::Output,
            Way::Errors => Target::Errors,
            Way::File(path) => {
                let file = open(rt, path.as_str()).ok();
                let torn = ends_amid_a_line(rt, path.as_str());
                Target::File(Appended { path, file, torn })
            }
        }
    }

    /// Opens a file again by its name. Where that fails the old one stays in use.
    pub(crate) fn reopen(&mut self, rt: &R) -> io::Result<()> {
        if let Target::File(appended) = self {
            let file = open(rt, appended.path.as_str())?;
            appended.file = Some(file);
            appended.torn = ends_amid_a_line(rt, appended.path.as_str());
        }
        Ok(())
    }

    /// Returns the file's name; an empty one for a standard stream.
    pub(crate) fn name(&self) -> &str {
        match self {
            Target::File(appended) => appended.path.as_str(),
            Target::Output | Target::Errors => "",
        }
    }
}

impl<R: Files + Print + Eprint> Target<R> {
    /// Writes whole lines, and returns how many bytes of whole lines were written.
    pub(crate) fn write(&mut self, rt: &R, lines: &str) -> usize {
        match self {
            Target::File(appended) => appended.write(lines.as_bytes()),
            Target::Output => print_lines(rt, lines),
            Target::Errors => eprint_lines(rt, lines),
        }
    }
}

impl<R: Files> Appended<R> {
    // A line that was written in part is cut off again, or else ended before the next one.
    fn write(&mut self, lines: &[u8]) -> usize {
        if self.torn {
            if self.put(b"\n") == 0 {
                return 0;
            }
            self.torn = false;
        }
        let written = self.put(lines);
        if written == lines.len() {
            return written;
        }
        let whole = whole_lines(&lines[..written]);
        if whole < written {
            self.torn = !self.cut_back(written - whole);
        }
        whole
    }

    // Writes as much as the file takes, and returns how many bytes that was.
    fn put(&mut self, bytes: &[u8]) -> usize
        ensures { result ≤ length bytes.now }
    {
        let Some(file) = &mut self.file else {
            return 0;
        };
        let mut written = 0;
        for _ in 0..MOST_WRITES {
            if bytes.len() <= written {
                break;
            }
            match file.write(&bytes[written..]) {
                Ok(0) => break,
                Ok(count) => written = (written + count).min(bytes.len()),
                Err(error) if error.kind() == ErrorKind::Interrupted => {}
                Err(_) => break,
            }
        }
        written.min(bytes.len())
    }

    // Cuts this number of bytes off the end of a file. False where it isn't a regular file.
    fn cut_back(&mut self, count: usize) -> bool {
        let Some(file) = &self.file else {
            return false;
        };
        let Ok(metadata) = file.metadata() else {
            return false;
        };
        if !metadata.is_file() {
            return false;
        }
        let rest = metadata.len().saturating_sub(count as u64);
        file.set_len(rest).is_ok()
    }
}

// Opening a pipe for writing waits for a reader; opening it for reading too doesn't. So the pipe is
// opened for both.
fn open<R: Files>(rt: &R, path: &str) -> io::Result<R::File> {
    let is_pipe = match fs::metadata(rt, path) {
        Ok(metadata) => metadata.file_type().is_fifo(),
        Err(_) => false,
    };
    let mut options = OpenOptions::new();
    let _ = options.append(true).create(!is_pipe).read(is_pipe);
    options.open(rt, path)
}

// Says whether the last byte of a file isn't a line's end: an earlier writer may have been cut off.
fn ends_amid_a_line<R: Files>(rt: &R, path: &str) -> bool {
    match last_byte(rt, path) {
        Ok(Some(last)) => last != b'\n',
        Ok(None) | Err(_) => false,
    }
}

// Returns the last byte of a file; `None` where it is empty, or isn't a regular file.
fn last_byte<R: Files>(rt: &R, path: &str) -> io::Result<Option<u8>> {
    let metadata = fs::metadata(rt, path)?;
    if !metadata.is_file() || metadata.len() == 0 {
        return Ok(None);
    }
    let mut options = OpenOptions::new();
    let mut file = options.read(true).open(rt, path)?;
    let _ = file.seek(SeekFrom::End(-1))?;
    let mut last = [0];
    match file.read(&mut last)? {
        0 => Ok(None),
        _ => Ok(Some(last[0])),
    }
}

// Prints lines piece by piece, and returns how many bytes were printed.
fn print_lines<R: Print>(rt: &R, lines: &str) -> usize {
    let mut printed = 0;
    for _ in 0..MOST_WRITES {
        let piece = piece_from(lines, printed);
        if piece.is_empty() || rt.print(piece).is_err() {
            break;
        }
        printed = printed.saturating_add(piece.len());
    }
    printed
}

// The same for standard error.
fn eprint_lines<R: Eprint>(rt: &R, lines: &str) -> usize {
    let mut printed = 0;
    for _ in 0..MOST_WRITES {
        let piece = piece_from(lines, printed);
        if piece.is_empty() || rt.eprint(piece).is_err() {
            break;
        }
        printed = printed.saturating_add(piece.len());
    }
    printed
}

// Returns as many whole lines as a pipe takes at once, so that none is torn where its reader hangs;
// or one line that is longer.
fn piece_from(lines: &str, from: usize) -> &str {
    let Some(rest) = lines.get(from..) else {
        return "";
    };
    if rest.len() <= PIECE {
        return rest;
    }
    let bytes = rest.as_bytes();
    let whole = match bytes.get(..PIECE) {
        Some(first) => whole_lines(first),
        None => 0,
    };
    let length = match whole {
        0 => first_line(bytes),
        whole => whole,
    };
    rest.get(..length).unwrap_or(rest)
}

// Returns the number of bytes of the first line.
fn first_line(bytes: &[u8]) -> usize {
    match bytes.iter().position(|byte| *byte == b'\n') {
        Some(last) => last.saturating_add(1),
        None => bytes.len(),
    }
}

// Returns how many of these bytes belong to whole lines.
fn whole_lines(bytes: &[u8]) -> usize
    ensures { result ≤ length bytes.now }
{
    match bytes.iter().rposition(|byte| *byte == b'\n') {
        Some(last) => last + 1,
        None => 0,
    }
}
