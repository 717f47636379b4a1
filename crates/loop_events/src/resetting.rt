//! The reset of servers' connections that are given up amid a message.

use libc::net as c;
use std::os::fd::RawFd;

/// Ends a connection at once: unsent bytes are thrown away, and the other end gets a reset. After a
/// plain close the system would still send them, and the server would work for a request that
/// nobody waits for, beyond its limit.
pub(crate) fn reset(connection: RawFd) {
    // An address of the family `AF_UNSPEC` dissolves a socket's connection.
    let nobody = [0u8; 128];
    // SAFETY: the call reads 16 of the 128 bytes of the address.
    let _ = unsafe { c::connect(connection, &nobody, 16) };
}
