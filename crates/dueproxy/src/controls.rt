//! The controls that the options ask for.

use config_command::ControlWords;
use run_control::{Controls, bound_at};
use std::fs;
use std::net::Net;
use std::rt::Files;

/// Makes the controls; `None` where the options ask for none. Where they can't be made, prints why
/// and returns the exit status.
pub(crate) fn controls_of<R: Files + Net + Eprint + AllocGlobal>(
    rt: &R,
    words: &ControlWords,
) -> Result<Option<Controls>, u8> {
    let mut listener = None;
    if let Some(path) = &words.path {
        match bound_at(rt, rt.alloc(), path.as_str()) {
            Ok(bound) => listener = Some(bound),
            Err(fault) => {
                let _ = rt.eprintln("read fault");
                let _ = eprintln!(rt; "{path}: {fault}");
                return Err(1);
            }
        }
    }
    if listener.is_none() && !words.ends_with_input {
        return Ok(None);
    }
    match Controls::new(rt, rt.alloc(), listener, words.ends_with_input) {
        Some(controls) => Ok(Some(controls)),
        None => {
            let _ = rt.eprintln("no memory");
            Err(1)
        }
    }
}

/// Removes the socket's file.
pub(crate) fn end_controls<R: Files>(rt: &R, words: &ControlWords) {
    if let Some(path) = &words.path {
        let _ = fs::remove_file(rt, path.as_str());
    }
}
