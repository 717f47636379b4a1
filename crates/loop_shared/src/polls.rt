//! A poll for each loop, and its mailbox.

use crate::mail::Mailbox;
use crate::watching::watch;
use base_places::PlaceSet;
use loop_table::Subject;
use mio::{Interest, Poll, Token, Waker};
use run_gate::GateShared;
use std::alloc::{AllocError, Global};
use std::net::{Net, TcpListener, TcpStream};
use std::os::fd::AsRawFd;
use std::sync::Mutex;

/// Makes a poll for each loop, with the listener in it, and its mailbox. Fails where memory is
/// refused, or the system refuses a poll.
pub fn polls_of<R: Net<Listener = TcpListener, Stream = TcpStream>>(
    rt: &R,
    alloc: Global,
    front: &GateShared<'_>,
    loops: usize,
) -> Result<(Vec<Poll>, Vec<Mailbox>), AllocError> {
    let mut polls = Vec::with_capacity(alloc, loops)?;
    let mut mail = Vec::with_capacity(alloc, loops)?;
    let _ = front.listener.set_nonblocking(true);
    for _ in 0..loops {
        let Some((poll, mailbox)) = poll_of(rt, front) else {
            return Err(AllocError);
        };
        mail.push(mailbox)?;
        polls.push(poll)?;
    }
    Ok((polls, mail))
}

fn poll_of<R: Net>(rt: &R, front: &GateShared<'_>) -> Option<(Poll, Mailbox)> {
    let poll = Poll::new(rt).ok()?;
    let registry = poll.registry();
    let waker = Waker::new(registry, Token(Subject::Mailbox.number()?)).ok()?;
    let listener = front.listener.as_raw_fd();
    let _watched = watch(registry, listener, Subject::Listener, Interest::READABLE)?;
    let places = Mutex::new(PlaceSet::new());
    Some((poll, Mailbox { places, waker }))
}
