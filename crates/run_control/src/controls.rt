use crate::reception::{LISTENER, WAKER};
use mio::unix::SourceFd;
use mio::{Interest, Poll, Token, Waker};
use std::alloc::Global;
use std::net::Net;
use std::os::fd::AsRawFd;
use std::os::unix::net::{UnixListener, UnixStream};
use std::sync::{Mutex, Wait};

/// The means by which a proxy is steered: a socket, the end of standard input, or both.
#[derive(Drop)]
pub struct Controls {
    pub(crate) listener: Option<UnixListener>,
    /// The end of standard input orders the proxy to stop.
    pub(crate) ends_with_input: bool,
    pub(crate) waker: Waker,
    pub(crate) alloc: Global,
    poll: Mutex<Option<Poll>>,
    kept: Mutex<Vec<UnixStream>>,
}

impl Controls {
    /// Makes the controls. Returns `None` where the system refuses a poll.
    pub fn new<R: Net>(
        rt: &R,
        alloc: Global,
        listener: Option<UnixListener>,
        ends_with_input: bool,
    ) -> Option<Controls> {
        let poll = Poll::new(rt).ok()?;
        let waker = Waker::new(poll.registry(), Token(WAKER)).ok()?;
        if let Some(listener) = &listener {
            let fd = listener.as_raw_fd();
            let mut source = SourceFd(&fd);
            poll.registry()
                .register(&mut source, Token(LISTENER), Interest::READABLE)
                .ok()?;
        }
        Some(Controls {
            listener,
            ends_with_input,
            waker,
            alloc,
            poll: Mutex::new(Some(poll)),
            kept: Mutex::new(Vec::new(alloc)),
        })
    }

    /// Wakes the thread that attends, so that it looks whether the proxy has ended.
    pub fn ring(&self) {
        // A wake fails only where an earlier one is still pending.
        let _ = self.waker.wake();
    }

    /// Takes the poll, which belongs to one thread.
    pub(crate) fn take_poll<R: Wait>(&self, rt: &R) -> Option<Poll> {
        self.poll.lock(rt).take()
    }

    /// Keeps a connection open until the controls are dropped. Where there is no memory for that, it is closed.
    pub(crate) fn keep<R: Wait>(&self, rt: &R, stream: UnixStream) {
        let _ = self.kept.lock(rt).push(stream);
    }
}
