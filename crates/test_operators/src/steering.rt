//! Tests of what commands do with a proxy that refuses some of them.

use due_key::Moment;
use late_cert::Reports;
use log_entries::{Intake, Refusal};
use log_texts::Names;
use run_control::{Answer, Awaited, CommandExecutor, Standing, Steered, Steers, Tended};
use std::alloc::{AllocError, Global};
use std::cell::Cell;
use std::process::Abort;
use std::test::Fail;

/// What a proxy sees of its steering.
#[derive(Drop)]
struct Seen {
    now: Cell<u64>,
    limited: Cell<Option<Intake>>,
    refused: Cell<bool>,
    /// The number of requests that each server serves.
    served: Cell<usize>,
}

impl Seen {
    fn new() -> Seen {
        Seen {
            now: Cell::new(0),
            limited: Cell::new(None),
            refused: Cell::new(false),
            served: Cell::new(0),
        }
    }
}

/// A fake proxy of two servers with a client. It refuses each limit of the first.
#[derive(Drop)]
struct Stubborn<'a> {
    alloc: Global,
    names: Names,
    seen: &'a Seen,
}

impl<'a> Steered for Stubborn<'a> {
    fn names(&self) -> &Names {
        &self.names
    }

    fn standing(&self, _server: usize) -> Standing {
        Standing {
            up: true,
            served: self.seen.served.get(),
            waiting: 0,
        }
    }

    fn waiting(&self) -> usize {
        0
    }

    fn places(&self) -> usize {
        16
    }

    fn clients(&self) -> u64 {
        1
    }

    fn reports(&self) -> Result<Reports, AllocError> {
        Ok(Reports::new(self.alloc))
    }

    fn limit(&mut self, server: usize, intake: Intake) -> Result<(), Refusal> {
        if server == 0 {
            return Err(Refusal::LogFull);
        }
        self.seen.limited.set(Some(intake));
        Ok(())
    }

    fn reopen(&self) -> bool {
        false
    }

    fn moment(&mut self) -> Moment {
        Moment::new(self.seen.now.get()).unwrap_or(Moment::zero())
    }

    fn stop(&mut self) {}

    fn is_empty(&self) -> bool {
        false
    }

    fn refuse(&mut self) {
        self.seen.refused.set(true);
    }

    fn close(&mut self) {}

    fn is_over(&self) -> bool {
        false
    }
}

fn steered(alloc: Global, seen: &Seen) -> Result<CommandExecutor<Stubborn<'_>>, AllocError> {
    let mut list = Vec::new(alloc);
    list.push(String::from_str(alloc, "a")?)?;
    list.push(String::from_str(alloc, "b")?)?;
    let proxy = Stubborn {
        alloc,
        names: Names::new(list),
        seen,
    };
    CommandExecutor::new(alloc, proxy, &[4, 5])
}

#[test]
fn a_refused_drain_is_told_at_once(rt: HostRuntime) -> Result<(), Fail> {
    let seen = Seen::new();
    let mut steered = steered(rt.alloc(), &seen)?;
    match steered.told(b"drain a --wait".as_slice())? {
        Answer::Now(text) => assert_eq!(rt;
            text.as_str(),
            "error: refused: the log is full: try it again\n"
        ),
        _ => assert!(rt; false),
    }
    Ok(())
}

#[test]
fn a_pause_reaches_the_servers_behind_a_refusal(rt: HostRuntime) -> Result<(), Fail> {
    let seen = Seen::new();
    let mut steered = steered(rt.alloc(), &seen)?;
    for (line, intake) in [
        (b"pause".as_slice(), Intake::Closed),
        (b"resume".as_slice(), Intake::Open(5)),
    ] {
        match steered.told(line)? {
            Answer::Now(text) => assert!(rt; text.as_str().starts_with("error: refused: ")),
            _ => assert!(rt; false),
        }
        assert_eq!(rt; seen.limited.get(), Some(intake));
    }
    Ok(())
}

#[test]
fn the_earlier_of_two_ends_holds(rt: HostRuntime) -> Result<(), Fail> {
    for (first, second) in [
        (
            b"stop --within 100".as_slice(),
            b"stop --within 900".as_slice(),
        ),
        (
            b"stop --within 900".as_slice(),
            b"stop --within 100".as_slice(),
        ),
        (b"stop --within 100".as_slice(), b"stop".as_slice()),
    ] {
        let seen = Seen::new();
        let mut steered = steered(rt.alloc(), &seen)?;
        let _ = steered.told(first)?;
        let _ = steered.told(second)?;
        seen.now.set(99);
        assert_eq!(rt; steered.tend(), Tended::Soon);
        assert!(rt; !seen.refused.get());
        seen.now.set(100);
        assert_eq!(rt; steered.tend(), Tended::Soon);
        assert!(rt; seen.refused.get());
    }
    Ok(())
}

// Drains the second server, which serves two requests, and returns what is awaited then.
fn draining(
    rt: &impl Abort,
    steered: &mut CommandExecutor<Stubborn<'_>>,
    seen: &Seen,
) -> Result<Awaited, Fail> {
    seen.served.set(2);
    match steered.told(b"drain b --wait".as_slice())? {
        Answer::Later(awaited) => {
            assert!(rt; steered.look(awaited)?.is_none());
            Ok(awaited)
        }
        _ => {
            assert!(rt; false);
            Ok(Awaited::End)
        }
    }
}

#[test]
fn a_drain_is_told_once_its_server_serves_nobody(rt: HostRuntime) -> Result<(), Fail> {
    let seen = Seen::new();
    let mut steered = steered(rt.alloc(), &seen)?;
    let awaited = draining(&rt, &mut steered, &seen)?;
    seen.served.set(1);
    assert!(rt; steered.look(awaited)?.is_none());
    seen.served.set(0);
    let told = steered.look(awaited)?;
    assert_eq!(rt;
        told.as_ref().map(|text| text.as_str()),
        Some("ok server b limit closed served 0\n")
    );
    Ok(())
}

#[test]
fn a_drain_is_told_once_its_server_is_opened_again(rt: HostRuntime) -> Result<(), Fail> {
    let seen = Seen::new();
    let mut steered = steered(rt.alloc(), &seen)?;
    let awaited = draining(&rt, &mut steered, &seen)?;
    let _ = steered.told(b"ready b".as_slice())?;
    let told = steered.look(awaited)?;
    assert_eq!(rt;
        told.as_ref().map(|text| text.as_str()),
        Some("ok server b limit 5 served 2\n")
    );
    Ok(())
}
