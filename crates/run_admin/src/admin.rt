use crate::reception::{LISTENER, WAKER};
use mio::unix::SourceFd;
use mio::{Interest, Poll, Token, Waker};
use std::alloc::Global;
use std::net::{Net, SocketAddr, TcpListener};
use std::os::fd::AsRawFd;
use std::sync::atomic::{AtomicBool, Ordering};
use std::sync::{Mutex, Wait};

/// The admin listener: the address where an operator asks a running proxy for its state.
#[derive(Drop)]
pub struct Admin {
    pub(crate) listener: TcpListener,
    pub(crate) alloc: Global,
    waker: Waker,
    poll: Mutex<Option<Poll>>,
    over: AtomicBool,
}

impl Admin {
    /// Makes an admin listener. Returns `None` where the system refuses a poll.
    pub fn new<R: Net>(rt: &R, alloc: Global, listener: TcpListener) -> Option<Admin> {
        let poll = Poll::new(rt).ok()?;
        let waker = Waker::new(poll.registry(), Token(WAKER)).ok()?;
        listener.set_nonblocking(true).ok()?;
        let fd = listener.as_raw_fd();
        let mut source = SourceFd(&fd);
        poll.registry()
            .register(&mut source, Token(LISTENER), Interest::READABLE)
            .ok()?;
        Some(Admin {
            listener,
            alloc,
            waker,
            poll: Mutex::new(Some(poll)),
            over: AtomicBool::new(false),
        })
    }

    /// Returns the address of the listener, or `None` where the system doesn't tell it.
    pub fn address(&self) -> Option<SocketAddr> {
        self.listener.local_addr().ok()
    }

    /// Ends the listener: the thread that attends to it returns.
    pub fn end(&self) {
        self.over.store(true, Ordering::SeqCst);
        // A wake fails only where an earlier one is still pending.
        let _ = self.waker.wake();
    }

    pub(crate) fn is_over(&self) -> bool {
        self.over.load(Ordering::SeqCst)
    }

    /// Takes the poll, which belongs to one thread.
    pub(crate) fn take_poll<R: Wait>(&self, rt: &R) -> Option<Poll> {
        self.poll.lock(rt).take()
    }
}
