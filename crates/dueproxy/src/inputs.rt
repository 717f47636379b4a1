//! The input that a script or a trace is read from.

use config_command::Input;
use std::fs::File;
use std::io::{IsTerminal, Read, Stdin};
use std::{fs, io};

/// A file, or standard input.
#[derive(Drop)]
pub(crate) enum Opened {
    Standard(Stdin),
    File(File),
}

impl Read for Opened {
    fn read(&mut self, buf: &mut [u8]) -> io::Result<usize> {
        match self {
            Opened::Standard(stream) => stream.read(buf),
            Opened::File(file) => file.read(buf),
        }
    }
}

/// Opens the input that the arguments name. Where they name none and standard input is a terminal,
/// prints what is expected.
pub(crate) fn open(rt: &HostRuntime, input: &Input, awaited: &str) -> io::Result<Opened> {
    match input {
        Input::File(name) => Ok(Opened::File(fs::open(rt, name.as_str())?)),
        Input::Standard => Ok(Opened::Standard(rt.stdin())),
        Input::Unnamed => {
            if rt.stdin().is_terminal() {
                let _ = eprintln!(rt;
                    "waiting for {awaited} on standard input, up to Ctrl-D; a FILE can be named instead (--help)"
                );
            }
            Ok(Opened::Standard(rt.stdin()))
        }
    }
}

/// Returns the name of an input.
pub(crate) fn name_of(input: &Input) -> &str {
    match input {
        Input::File(name) => name.as_str(),
        Input::Unnamed | Input::Standard => "standard input",
    }
}
