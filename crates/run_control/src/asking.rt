//! The client of a control socket: `dueproxy ctl`.

use crate::scanning::Scan;
use std::alloc::{AllocError, Global};
use std::io;
use std::io::{ErrorKind, Read, Write};
use std::net::Net;
use std::os::unix::net::UnixStream;

const BUFFER: usize = 4096;

/// The most reads of one call.
const MOST_READS: u64 = u64::MAX;

/// The beginning of an answer that reports an error.
const FAULT: &[u8; 6] = b"error:";

/// How the reading of an answer ended.
#[derive(Clone, Copy, Debug, PartialEq, Eq)]
enum Reply {
    /// The answer is whole.
    Done,
    /// The answer is whole and reports an error.
    Refused,
    /// The connection was closed before the answer's end.
    Cut,
    /// The answer couldn't be printed.
    Unwritten,
}

/// Sends a command to the proxy at a path, prints its answer, and returns the exit status: 1 where
/// there is no answer, or one that reports an error. After `stop` it waits until the proxy has
/// ended.
pub fn ask<R: Net + Print + Eprint + AllocGlobal>(rt: &R, path: &str, words: &[String]) -> u8 {
    match line_of(rt.alloc(), words) {
        Err(_) => {
            let _ = rt.eprintln("no memory");
            1
        }
        Ok(None) => {
            let _ = rt.eprintln("a command is one line: a word has a line feed");
            2
        }
        Ok(Some(line)) => ask_line(rt, path, line.as_bytes()),
    }
}

// Returns the words as one line; `None` where one has a line feed.
fn line_of(alloc: Global, words: &[String]) -> Result<Option<String>, AllocError> {
    let mut line = String::new(alloc);
    for word in words {
        if word.as_bytes().contains(&b'\n') {
            return Ok(None);
        }
        line.push_str(word.as_str())?;
        line.push(' ')?;
    }
    line.push('\n')?;
    Ok(Some(line))
}

fn ask_line<R: Net + Print + Eprint + AllocGlobal>(rt: &R, path: &str, line: &[u8]) -> u8 {
    let mut stream = match UnixStream::connect(rt, path) {
        Ok(stream) => stream,
        Err(error) => {
            let _ = eprintln!(rt; "cannot reach {path}: {error}");
            return 1;
        }
    };
    if stream.write_all(line).is_err() {
        return say_cut(rt, path);
    }
    let mut buffer = [0u8; BUFFER];
    match read_answer(rt, &mut stream, &mut buffer) {
        Reply::Done => {
            if line.starts_with(b"stop ".as_slice()) {
                wait_for_end(&mut stream, &mut buffer);
            }
            0
        }
        Reply::Refused => 1,
        Reply::Cut => say_cut(rt, path),
        Reply::Unwritten => {
            let _ = rt.eprintln("write fault");
            1
        }
    }
}

fn say_cut<R: Eprint>(rt: &R, path: &str) -> u8 {
    let _ = eprintln!(rt; "{path}: the connection was closed before the answer");
    1
}

// Prints an answer as it comes.
fn read_answer<R: Print, S: Read>(rt: &R, stream: &mut S, buffer: &mut [u8]) -> Reply {
    let mut scan = Scan::new();
    let mut reply = Reply::Done;
    let mut begun = false;
    for _ in 0..MOST_READS {
        let came = match stream.read(buffer) {
            Ok(0) => return Reply::Cut,
            Ok(count) => buffer.get(..count).unwrap_or_default(),
            Err(error) if error.kind() == ErrorKind::Interrupted => continue,
            Err(_) => return Reply::Cut,
        };
        if !begun && came.starts_with(FAULT.as_slice()) {
            reply = Reply::Refused;
        }
        begun = true;
        let scanned = scan.read(came);
        if io::writer(rt).write_all(&came[..scanned.count]).is_err() {
            return Reply::Unwritten;
        }
        if scanned.ended {
            return reply;
        }
    }
    Reply::Cut
}

// Reads and discards bytes until the connection is closed.
fn wait_for_end<S: Read>(stream: &mut S, buffer: &mut [u8]) {
    for _ in 0..MOST_READS {
        match stream.read(buffer) {
            Ok(0) => return,
            Ok(_) => {}
            Err(error) if error.kind() == ErrorKind::Interrupted => {}
            Err(_) => return,
        }
    }
}
