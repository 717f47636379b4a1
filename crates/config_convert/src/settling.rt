//! The joined configuration, corrected until the configuration's own reader accepts it.

ghost use Rattle.std.specs.Prelude.{◌≡◌, ◌↔◌, IfOk, IsNone, IsOk};
ghost use Rattle.proxy_config.specs.File.{reading};
ghost use Rattle.config_convert.specs.Statuses.{status_of_conversion};
ghost use Rattle.config_convert.specs.Taken.{IsTried};

use crate::choosing::choose;
use crate::joining::join;
use crate::notes::Note;
use crate::output::Output;
use crate::sections::sections_of;
use proxy_config::{ConfigFault, FaultCause, MOST_BYTES, ReadError, read};
use std::alloc::{AllocError, Global};
use thiserror::Error;

/// The most lines that are left out because the reader refuses them.
const MOST_TURNS: usize = 1000;

/// A configuration that was converted from one of HAProxy.
#[derive(Debug, Drop)]
pub struct Conversion {
    pub text: Vec<u8>,
    /// The changes for clients or servers, the gravest first.
    pub notes: Vec<Note>,
}

/// Why there is no conversion.
#[derive(Debug, Drop, Error)]
pub enum Unconverted {
    #[error("no memory")]
    NoMemory,
    #[error("no listen comes of it: the file, or what comes of it, is longer than 1048576 bytes")]
    Long,
    #[error("no listen comes of it: line {line} is conditional, and conditions are not evaluated")]
    Macro { line: usize },
    #[error("no listen comes of it: no frontend or listen is named {name}; there are: {there}")]
    NoFrontend { name: String, there: String },
    #[error("no listen comes of it: no frontend of HTTP has a default_backend, and no listen a server; there are: {there}")]
    NoServers { there: String },
    #[error("no listen comes of it: no backend is named {name}; there are: {there}")]
    NoBackend { name: String, there: String },
    #[error("no listen comes of it: {name} has no default_backend, so name one by --backend; there are: {there}")]
    NoDefault { name: String, there: String },
    #[error("no listen comes of it: {name} is not in mode http")]
    Tcp { name: String },
    #[error("no listen comes of it: no bind or no server of it can be carried over")]
    Incomplete,
    #[error("no listen comes of it: more than 1000 lines of it are none that check takes")]
    Many,
}

impl From<AllocError> for Unconverted {
    fn from(_error: AllocError) -> Unconverted {
        Unconverted::NoMemory
    }
}

/// Converts a configuration of HAProxy to one that `check` accepts: the named frontend and backend,
/// or else the first HTTP `frontend` or `listen` with servers.
pub fn convert(
    alloc: Global,
    bytes: &[u8],
    frontend: Option<&str>,
    backend: Option<&str>,
) -> Result<Conversion, Unconverted>
    ensures taken { IfOk result (λ made. IsOk (reading made.text.items)) }
{
    if MOST_BYTES < bytes.len() {
        return Err(Unconverted::Long);
    }
    let sections = sections_of(alloc, bytes)?;
    let choice = choose(alloc, &sections, frontend, backend)?;
    let output = join(alloc, &sections, choice)?;
    settle(alloc, output)
}

// Leaves out the lines that the reader refuses, one by one, until it accepts the rest.
fn settle(alloc: Global, mut output: Output) -> Result<Conversion, Unconverted>
    ensures taken { IfOk result (λ made. IsOk (reading made.text.items)) }
{
    for _ in 0..MOST_TURNS {
        match taken_text(alloc, &output)? {
            Tried::Taken(text) => return Ok(conversion_of(text, output)),
            Tried::Faulty(fault) if fault.cause == FaultCause::Missing => {
                return Err(Unconverted::Incomplete);
            }
            Tried::Faulty(_) if MOST_BYTES < output.length() => return Err(Unconverted::Long),
            Tried::Faulty(fault) => output.leave_out(fault)?,
        }
    }
    Err(Unconverted::Many)
}

fn conversion_of(text: Vec<u8>, output: Output) -> Conversion
    ensures { result.text ≡ text }
{
    let Output { notes, .. } = output;
    Conversion { text, notes }
}

/// The reader's answer to a text.
#[derive(Drop)]
enum Tried {
    Taken(Vec<u8>),
    Faulty(ConfigFault),
}

fn taken_text(alloc: Global, output: &Output) -> Result<Tried, AllocError>
    ensures { IfOk result IsTried }
{
    let text = text_of(alloc, output)?;
    match fault_of(alloc, text.as_slice())? {
        None => Ok(Tried::Taken(text)),
        Some(fault) => Ok(Tried::Faulty(fault)),
    }
}

fn fault_of(alloc: Global, text: &[u8]) -> Result<Option<ConfigFault>, AllocError>
    ensures { IfOk result (λ fault. IsNone fault ↔ IsOk (reading text.now)) }
{
    match read(alloc, text) {
        Ok(_) => Ok(None),
        Err(ReadError::Fault(fault)) => Ok(Some(fault)),
        Err(ReadError::NoMemory) => Err(AllocError),
    }
}

fn text_of(alloc: Global, output: &Output) -> Result<Vec<u8>, AllocError> {
    let mut text = Vec::new(alloc);
    for line in output.lines.iter() {
        text.extend_from_slice(line.bytes.as_slice())?;
        text.push(b'\n')?;
    }
    Ok(text)
}

/// Returns the exit status of a conversion: 0 where nothing changes, 6 where something does, 3
/// where it failed, 1 where memory is refused.
pub fn status_of(converted: &Result<Conversion, Unconverted>) -> u8
    ensures { result ≡ status_of_conversion converted.now }
{
    match converted {
        Ok(made) if made.notes.is_empty() => 0,
        Ok(_) => 6,
        Err(Unconverted::NoMemory) => 1,
        Err(_) => 3,
    }
}
