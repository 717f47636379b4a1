//! Tests of windows that are printed while standard output is slow.

use dispatch_reports::{EndedWindow, ServerLine};
use due_key::Moment;
use late_cert::Reports;
use log_texts::Names;
use run_windows::WindowPrinter;
use std::alloc::Global;
use std::fmt::Display;
use std::io::ErrorKind;
use std::process::Abort;
use std::sync::{Mutex, Wait};
use std::thread::Threads;
use std::{io, thread};

/// A runtime whose standard output is a text. While the text is locked nobody can print.
#[derive(Clone, Copy)]
struct Slow<'a, R> {
    rt: &'a R,
    text: &'a Mutex<String>,
}

impl<'a, R: Wait + AllocGlobal> Slow<'a, R> {
    fn push<D: Display + Drop>(&self, value: D, end: &str) -> io::Result<()> {
        let Ok(printed) = value.to_string(self.rt.alloc()) else {
            return Err(io::Error::from(ErrorKind::OutOfMemory));
        };
        let mut text = self.text.lock(self.rt);
        match text.push_str(printed.as_str()) {
            Ok(()) => text
                .push_str(end)
                .or(Err(io::Error::from(ErrorKind::OutOfMemory))),
            Err(_) => Err(io::Error::from(ErrorKind::OutOfMemory)),
        }
    }
}

impl<'a, R: Wait + AllocGlobal> Print for Slow<'a, R> {
    fn print<D: Display + Drop>(&self, value: D) -> io::Result<()> {
        self.push(value, "")
    }

    fn println<D: Display + Drop>(&self, value: D) -> io::Result<()> {
        self.push(value, "\n")
    }

    fn write_all(&self, _bytes: &[u8]) -> io::Result<()> {
        Err(io::Error::from(ErrorKind::Unsupported))
    }
}

impl<'a, R: Eprint> Eprint for Slow<'a, R> {
    fn eprint<D: Display + Drop>(&self, value: D) -> io::Result<()> {
        self.rt.eprint(value)
    }

    fn eprintln<D: Display + Drop>(&self, value: D) -> io::Result<()> {
        self.rt.eprintln(value)
    }
}

impl<'a, R: Wait> Wait for Slow<'a, R> {}

// A window in which the only server was given one request on arrival.
fn window(rt: &impl Abort, alloc: Global) -> EndedWindow {
    let line = ServerLine {
        up: true,
        direct: 1,
        granted: 0,
    };
    EndedWindow {
        reports: Reports::new(alloc),
        servers: vec![in alloc; line].expect(rt, "memory"),
    }
}

// Hands this number of windows over while nobody can print, and returns once the printing thread has ended.
fn hand_over_unread<R: Eprint + Wait + Threads + AllocGlobal + Abort + Sync>(
    rt: &R,
    slow: &Slow<'_, R>,
    printer: &WindowPrinter,
    windows: u32,
) {
    thread::scope(thread::scope_env(), rt, |scope| {
        let printing = scope.spawn(move || printer.print_all(slow)).ok();
        let held = slow.text.lock(rt);
        for _ in 0..windows {
            printer.hand_over(rt, window(rt, rt.alloc()), Moment::zero());
        }
        drop(held);
        printer.end(rt);
        if let Some(handle) = printing {
            handle.join(rt);
        }
    })
}

#[test]
fn windows_are_handed_over_while_nobody_reads(rt: HostRuntime) {
    let alloc = rt.alloc();
    let text = Mutex::new(String::new(alloc));
    let slow = Slow {
        rt: &rt,
        text: &text,
    };
    let names = Names::new(Vec::new(alloc));
    let printer = WindowPrinter::new(alloc, names, 1).expect(&rt, "memory");
    hand_over_unread(&rt, &slow, &printer, 20);
    let (_names, told, _sink) = printer.into_told();
    assert_eq!(rt; told.windows, 20);
    let line = told.sums.lines().first().expect(&rt, "a line");
    assert_eq!(rt; line.direct, 20);
    let text = text.into_inner();
    assert!(rt; text.as_str().starts_with("window 1\nwindow 2\nwindow 3\n"));
    // One window may have been taken before 16 waited.
    let printed = text.as_str().lines().count();
    assert!(rt; printed == 16 || printed == 17);
}
