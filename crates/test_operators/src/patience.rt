//! Tests of clients of the control socket that wait for long.

use crate::sockets::Echo;
use run_control::{Controls, attend, bound_at};
use std::cell::Cell;
use std::io::{Read, Write};
use std::os::unix::net::UnixStream;
use std::sync::Wait;
use std::test::Fail;
use std::time::{Clock, Duration};
use std::{fs, io};

/// A runtime whose clock is half a minute later at each look.
#[derive(Drop)]
struct Hasty<'a, R> {
    rt: &'a R,
    seconds: Cell<u64>,
}

impl<'a, R: Clock> Clock for Hasty<'a, R> {
    fn monotonic(&self) -> io::Result<Duration> {
        let seconds = self.seconds.get().saturating_add(30);
        self.seconds.set(seconds);
        Ok(Duration::from_secs(seconds))
    }

    fn since_1970(&self) -> io::Result<Duration> {
        self.rt.since_1970()
    }
}

impl<'a, R: Wait> Wait for Hasty<'a, R> {}

#[test]
fn who_awaits_an_answer_may_be_silent_for_long(rt: HostRuntime) -> Result<(), Fail> {
    let alloc = rt.alloc();
    let path = "control_patience_test.sock";
    let _ = fs::remove_file(&rt, path);
    let listener = bound_at(&rt, alloc, path)?;
    let Some(controls) = Controls::new(&rt, alloc, Some(listener), false) else {
        return Err(Fail::from("no poll"));
    };
    let mut waiter = UnixStream::connect(&rt, path)?;
    waiter.write_all(b"later\n".as_slice())?;
    let mut silent = UnixStream::connect(&rt, path)?;
    silent.write_all(b"one\n".as_slice())?;
    let hasty = Hasty {
        rt: &rt,
        seconds: Cell::new(0),
    };
    attend(&hasty, &controls, &mut Echo::new(alloc, 6))?;
    drop(controls);
    let mut got = Vec::new(alloc);
    waiter.read_to_end(&mut got)?;
    assert_eq!(rt; got.as_slice(), b"drained\n\n".as_slice());
    let mut got = Vec::new(alloc);
    silent.read_to_end(&mut got)?;
    assert_eq!(rt; got.as_slice(), b"told\n\n".as_slice());
    fs::remove_file(&rt, path)?;
    Ok(())
}
