ghost use Rattle.proxy_config.specs.File.{reading};
ghost use Rattle.std.specs.Prelude.{◌≡◌};
ghost use Rattle.config_files.specs.Checks.{IsCheckOf, status_of_check};

use crate::files::say_reason;
use config_advice::{Explanation, explain, idle_lines};
use proxy_config::{ConfigFault, ReadError, read};
use std::alloc::Global;
use std::io::{Error, ErrorKind, Read};
use std::rt::Files;
use std::{fs, io};
use thiserror::Error;

/// The result of a check.
#[derive(Clone, Copy, Debug, PartialEq, Eq, Error)]
pub enum Checked {
    #[error("ok servers {0}")]
    Good(usize),
    #[error("config {0}")]
    Faulty(ConfigFault),
    #[error("no memory")]
    NoMemory,
    #[error("read fault")]
    Unread,
}

/// What is written to standard error beside the result.
#[derive(Clone, Copy, Debug, PartialEq, Eq)]
pub enum CheckOutput {
    Nothing,
    /// Every faulty line and its replacement, and the lines without effect.
    Advice,
}

/// Checks the configuration in a file, prints the result, and returns the exit status: 0, 3 where
/// the configuration is faulty, 1 where anything else went wrong.
pub fn check<R: Files + Print + Eprint + AllocGlobal>(
    rt: &R,
    file: &str,
    beside: CheckOutput,
) -> u8 {
    let bytes = match read_file(rt, file) {
        Ok(bytes) => bytes,
        Err(error) => return say_unread(rt, file, error),
    };
    let status = print(rt, check_bytes(rt.alloc(), &bytes));
    if beside == CheckOutput::Advice {
        say_faults(rt, &bytes);
        warn(rt, &bytes);
    }
    status
}

/// The same, with every faulty line and its replacement before the result, and the lines without
/// effect on standard error.
pub fn check_in_full<R: Files + Print + Eprint + AllocGlobal>(rt: &R, file: &str) -> u8 {
    let bytes = match read_file(rt, file) {
        Ok(bytes) => bytes,
        Err(error) => return say_unread(rt, file, error),
    };
    let status = match explain(rt.alloc(), &bytes) {
        Err(_) => print(rt, Checked::NoMemory),
        Ok(Explanation { whole: true, .. }) => print(rt, check_bytes(rt.alloc(), &bytes)),
        Ok(
            Explanation {
                faulty,
                text,
                whole: false,
            },
        ) => print_all(rt, faulty, &text),
    };
    warn(rt, &bytes);
    status
}

/// Writes the faults of a configuration and their replacements to standard error.
pub fn say_faults(rt: &(impl Eprint + AllocGlobal), bytes: &[u8]) {
    if let Ok(explained) = explain(rt.alloc(), bytes) {
        let _ = rt.eprint(explained.text.as_str());
    }
}

// Writes the lines without effect to standard error.
fn warn(rt: &(impl Eprint + AllocGlobal), bytes: &[u8]) {
    if let Ok(text) = idle_lines(rt.alloc(), bytes) {
        let _ = rt.eprint(text.as_str());
    }
}

// Says why a file can't be read, or that there is no memory for it.
fn say_unread(rt: &(impl Print + Eprint), file: &str, error: Error) -> u8 {
    if error.kind() == ErrorKind::OutOfMemory {
        return print(rt, Checked::NoMemory);
    }
    let status = print(rt, Checked::Unread);
    say_reason(rt, file, error);
    status
}

// Prints the explanation, and the number of lines that would have to change.
fn print_all(rt: &(impl Print + Eprint), faulty: usize, text: &str) -> u8 {
    if rt.print(text).is_err() || println!(rt; "lines to change: {faulty}").is_err() {
        let _ = rt.eprintln("write fault");
        return 1;
    }
    3
}

/// Reads all bytes of a file.
pub fn read_file<R: Files + AllocGlobal>(rt: &R, file: &str) -> io::Result<Vec<u8>> {
    let mut opened = fs::open(rt, file)?;
    let mut bytes = Vec::new(rt.alloc());
    opened.read_to_end(&mut bytes)?;
    Ok(bytes)
}

fn check_bytes(alloc: Global, bytes: &[u8]) -> Checked
    ensures { IsCheckOf (reading bytes.now) result }
{
    match read(alloc, bytes) {
        Ok(config) => Checked::Good(config.servers.len()),
        Err(ReadError::Fault(fault)) => Checked::Faulty(fault),
        Err(ReadError::NoMemory) => Checked::NoMemory,
    }
}

// Prints the result to standard output, and other errors to standard error.
fn print(rt: &(impl Print + Eprint), checked: Checked) -> u8 {
    let printed = match checked {
        Checked::Good(_) | Checked::Faulty(_) => rt.println(checked),
        Checked::NoMemory | Checked::Unread => rt.eprintln(checked),
    };
    if printed.is_err() {
        let _ = rt.eprintln("write fault");
        return 1;
    }
    status_of(checked)
}

/// Returns the exit status of a check.
pub fn status_of(checked: Checked) -> u8
    ensures { result ≡ status_of_check checked }
{
    match checked {
        Checked::Good(_) => 0,
        Checked::Faulty(_) => 3,
        Checked::NoMemory | Checked::Unread => 1,
    }
}
