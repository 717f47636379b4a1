//! The advice below the line of a fault of a script or of a trace.

use base_advice::{Kept, explain_script_line, explain_trace_line};
use config_files::say_reason;
use replay::Fault;
use std::io::{Error, ErrorKind, Read};
use view_files::InputFault;

/// The kind of a fault, for further advice.
#[derive(Clone, Copy)]
pub(crate) enum Why {
    Unread,
    Script(usize),
    Trace(usize),
    /// The line says everything.
    Plain,
}

/// Prints why an input can't be opened, and returns the exit status.
pub(crate) fn say_unopened(rt: &impl Eprint, name: &str, error: Error) -> u8 {
    if error.kind() == ErrorKind::OutOfMemory {
        let _ = rt.eprintln("no memory");
    } else {
        let _ = rt.eprintln("read fault");
        say_reason(rt, name, error);
    }
    1
}

/// Prints why a read of the input with this name failed, or what is wrong with a line of it.
pub(crate) fn say_why<R: Read>(
    rt: &(impl Eprint + AllocGlobal),
    name: &str,
    kept: &Kept<'_, R>,
    why: Why,
) {
    let seen = kept.seen().unwrap_or(b"".as_slice());
    let told = match why {
        Why::Script(line) => explain_script_line(rt.alloc(), seen, line),
        Why::Trace(line) => explain_trace_line(rt.alloc(), seen, line),
        Why::Unread => {
            if let Some(error) = kept.failure() {
                say_reason(rt, name, error);
            }
            return;
        }
        Why::Plain => return,
    };
    if let Ok(text) = told {
        let _ = rt.eprint(text.as_str());
    }
}

/// Returns the kind of a replay's fault.
pub(crate) fn why_of(fault: Fault) -> Why {
    match fault {
        Fault::Read => Why::Unread,
        Fault::Script { line } => Why::Script(line),
        Fault::NoMemory | Fault::Write => Why::Plain,
    }
}

/// Returns the kind of a drawing's or a story's fault.
pub(crate) fn why_of_input(fault: InputFault) -> Why {
    match fault {
        InputFault::Unread => Why::Unread,
        InputFault::Script { line } => Why::Script(line),
        InputFault::Trace { line, .. } => Why::Trace(line),
        InputFault::NoMemory | InputFault::Unwritten => Why::Plain,
    }
}
