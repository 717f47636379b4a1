//! Files that the proxy reads or writes.

use std::io::{Error, ErrorKind};

/// Prints to standard error what the system says of a file, and below that the advice where there is one.
pub fn say_reason(rt: &impl Eprint, name: &str, error: Error) {
    let _ = eprintln!(rt; "{name}: {error}");
    if let Some(remedy) = remedy(error.kind()) {
        let _ = eprintln!(rt; "  {remedy}");
    }
}

/// Returns the advice for a failure of this kind at a file.
pub fn remedy(kind: ErrorKind) -> Option<&'static str> {
    match kind {
        ErrorKind::NotFound => Some(
            "Is the name right? It is looked up from the folder in which the program was started.",
        ),
        ErrorKind::PermissionDenied => Some(
            "Start the program as a user who may read it, or change who may: ls -l shows that.",
        ),
        ErrorKind::IsADirectory => Some("Name a file in it."),
        ErrorKind::NotADirectory => Some("A part of the name before the last / is a file."),
        ErrorKind::FilesystemLoop => Some("A link leads back to itself."),
        _ => None,
    }
}
