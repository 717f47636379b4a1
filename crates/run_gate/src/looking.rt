//! The threads that look names up.

use crate::addresses::Addresses;
use crate::name::Name;
use std::alloc::AllocError;
use std::net::{Net, TcpListener, TcpStream};
use std::sync::{Arc, Wait};
use std::thread;
use std::thread::Threads;
use std::time::{Clock, Duration, Instant};

/// The longest wait for the first answers, in milliseconds.
const FIRST: u64 = 1000;

impl Addresses {
    /// Starts a thread for each name that looks it up, now and each time that is asked for, and
    /// waits at most a second for the first answers. A thread owns all that it works with: it may
    /// still wait for an answer when everything else has ended. Where one can't be started, all are
    /// ended.
    pub fn start<
        R: Net<Listener = TcpListener, Stream = TcpStream>
            + Clock
            + Threads
            + Wait
            + Copy
            + Send
            + 'static,
    >(&self, rt: &R) -> Result<(), AllocError> {
        for name in self.names.as_slice() {
            if let Some(name) = name {
                let started = start_one(*rt, name);
                if started.is_err() {
                    self.close(rt);
                    return Err(AllocError);
                }
            }
        }
        self.wait_for_answers(rt);
        Ok(())
    }

    fn wait_for_answers<R: Clock + Wait>(&self, rt: &R) {
        let Ok(start) = Instant::now(rt) else {
            return;
        };
        for name in self.names.as_slice() {
            if let Some(name) = name {
                let passed = start.elapsed(rt).unwrap_or(Duration::MAX);
                name.wait_for_answer(rt, Duration::from_millis(FIRST).saturating_sub(passed));
            }
        }
    }
}

fn start_one<
    R: Net<Listener = TcpListener, Stream = TcpStream>
        + Clock
        + Threads
        + Wait
        + Copy
        + Send
        + 'static,
>(rt: R, name: &Arc<Name>) -> Result<(), AllocError> {
    let name = Arc::try_clone(name)?;
    match thread::spawn(&rt, move || name.look_up_all(&rt)) {
        Ok(_running) => Ok(()),
        Err(_) => Err(AllocError),
    }
}
