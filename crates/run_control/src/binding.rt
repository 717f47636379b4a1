//! The making of a control socket.

use std::alloc::{AllocError, Global};
use std::fs::Permissions;
use std::io::ErrorKind;
use std::net::Net;
use std::os::unix::fs::{FileTypeExt, PermissionsExt};
use std::os::unix::net::{UnixListener, UnixStream};
use std::rt::Files;
use std::{fs, io};
use thiserror::Error;

/// Only the proxy's user may connect.
const MODE: u32 = 0o600;

/// The most connections that are discarded because they came before the mode was set.
const MOST_EARLY: usize = 4096;

/// Why there is no control socket.
#[derive(Debug, Drop, Error)]
pub enum BindFault {
    #[error("no memory")]
    NoMemory,
    /// The path names a file that isn't a socket.
    #[error("there is a file that is no socket: give another path, or remove it")]
    NoSocket,
    #[error("another process listens there: give another path")]
    Taken,
    #[error("{0}")]
    System(io::Error),
}

impl From<AllocError> for BindFault {
    ghost use Rattle.std.specs.Prelude.{◌≡◌};
    ghost use Rattle.run_control.specs.declared.binding.BindFault.TheVariants.{NoMemory};

    ghost from_gives = { λ _ fault. fault ≡ NoMemory };

    fn from(_: AllocError) -> BindFault {
        BindFault::NoMemory
    }
}

/// Makes a socket at a path to which only the process's user may connect. It replaces a socket
/// where nobody listens any more. It is bound under another name, gets its mode, and only then its
/// own name.
pub fn bound_at<R: Files + Net>(
    rt: &R,
    alloc: Global,
    path: &str,
) -> Result<UnixListener, BindFault> {
    look_before(rt, path)?;
    let early = format!(in alloc; "{path}.new")?;
    look_before(rt, early.as_str())?;
    let _ = fs::remove_file(rt, early.as_str());
    match made_at(rt, early.as_str(), path) {
        Ok(listener) => Ok(listener),
        Err(error) => {
            let _ = fs::remove_file(rt, early.as_str());
            Err(BindFault::System(error))
        }
    }
}

fn made_at<R: Files + Net>(rt: &R, early: &str, path: &str) -> io::Result<UnixListener> {
    let listener = UnixListener::bind(rt, early)?;
    fs::set_permissions(rt, early, Permissions::from_mode(MODE))?;
    listener.set_nonblocking(true)?;
    for _ in 0..MOST_EARLY {
        if listener.accept().is_err() {
            break;
        }
    }
    fs::rename(rt, early, path)?;
    Ok(listener)
}

// Checks that nothing is at a path, or a socket where nobody listens.
fn look_before<R: Files + Net>(rt: &R, path: &str) -> Result<(), BindFault> {
    let found = match fs::symlink_metadata(rt, path) {
        Ok(found) => found,
        Err(error) if error.kind() == ErrorKind::NotFound => return Ok(()),
        Err(error) => return Err(BindFault::System(error)),
    };
    if !found.file_type().is_socket() {
        return Err(BindFault::NoSocket);
    }
    match UnixStream::connect(rt, path) {
        Ok(_) => Err(BindFault::Taken),
        Err(error) if error.kind() == ErrorKind::ConnectionRefused => Ok(()),
        Err(error) => Err(BindFault::System(error)),
    }
}
