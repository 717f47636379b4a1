ghost use Rattle.std.specs.Prelude.{◌≡◌, IfOk, string_bytes};
ghost use Rattle.run_windows.specs.Texts.{window_text};

use crate::handed::{Handed, HandedOver, Numbered};
use crate::printed::{PrintFault, PrintedWindows};
use crate::text::push_window;
use dispatch_reports::EndedWindow;
use due_key::Moment;
use log_lines::Dates;
use log_sink::Sink;
use log_texts::Names;
use std::alloc::{AllocError, Global};
use std::sync::{Arc, Condvar, Mutex, Wait};

/// The meeting point of the threads that hand windows over and the one that prints them. The latter
/// has the lock while it takes a window, and never while it prints one.
#[derive(Drop)]
pub struct WindowPrinter {
    alloc: Global,
    names: Names,
    handed: Mutex<Handed>,
    bell: Condvar,
    /// The time of moment 0 in milliseconds since the Unix epoch, where lines tell the times of windows.
    base: Option<i64>,
    /// The sink of their lines in place of standard output, where there is one.
    sink: Option<Arc<Sink>>,
}

impl WindowPrinter {
    /// Makes the printer for servers with these names.
    pub fn new(alloc: Global, names: Names, servers: usize) -> Result<WindowPrinter, AllocError> {
        Ok(WindowPrinter {
            alloc,
            names,
            handed: Mutex::new(Handed::new(alloc, servers)?),
            bell: Condvar::new(),
            base: None,
            sink: None,
        })
    }

    /// Lets each line tell when its window began and ended, where moment 0 is this number of
    /// milliseconds after the Unix epoch.
    pub fn dated(self, base: Option<i64>) -> WindowPrinter
        ensures { result ≡ record self { base = base } }
    {
        let mut printer = self;
        printer.base = base;
        printer
    }

    /// Sends their lines to this sink, so that one writer has all.
    pub fn onto(self, sink: Option<Arc<Sink>>) -> WindowPrinter
        ensures { result ≡ record self { sink = sink } }
    {
        let mut printer = self;
        printer.sink = sink;
        printer
    }

    /// Returns the servers' names.
    pub fn names(&self) -> &Names
        ensures { result.now ≡ self.now.names }
    {
        &self.names
    }

    /// Takes a window that ended at this moment. It is counted now, and printed later; where too
    /// many wait to be printed, it is left out.
    pub fn hand_over<R: Wait>(&self, rt: &R, window: EndedWindow, ended: Moment) -> HandedOver
        ensures { (result.window.value ≡ window) × (result.ended ≡ ended) }
    {
        let it = self.handed.lock(rt).hand_over(window, ended);
        self.bell.notify_all();
        it
    }

    /// Prints each window that is handed over, whole and in order, until no more come and all are
    /// printed. It reports on standard error how many were left out, once there is room again.
    pub fn print_all<R: Print + Eprint + Wait>(&self, rt: &R) {
        let mut dates = self.base.map(|base| Dates::new(self.alloc, base));
        for _ in rt.forever() {
            let Some(window) = self.next(rt) else {
                return;
            };
            match self.print(rt, &window, &mut dates) {
                Ok(true) => {}
                Ok(false) => self.handed.lock(rt).leave_out(),
                Err(fault) => self.handed.lock(rt).fail(fault),
            }
            self.say_left_out(rt);
        }
        unreachable!()
    }

    /// Notes that no more are handed over. It reports on standard error how many were left out.
    pub fn end<R: Eprint + Wait>(&self, rt: &R) {
        self.handed.lock(rt).end();
        self.bell.notify_all();
        self.say_left_out(rt);
    }

    /// Returns the servers' names, all windows in numbers, and the sink of their lines, where there was one.
    pub fn into_told(self) -> (Names, PrintedWindows, Option<Arc<Sink>>) {
        let WindowPrinter {
            alloc: _,
            names,
            handed,
            bell: _,
            base: _,
            sink,
        } = self;
        (names, handed.into_inner().into_told(), sink)
    }

    // Waits for the next window; `None` where no more come.
    fn next<R: Wait>(&self, rt: &R) -> Option<Numbered> {
        let mut handed = self
            .bell
            .wait_while(rt, self.handed.lock(rt), |handed| handed.rests());
        handed.next()
    }

    // Prints a window. False where it found no room.
    fn print<R: Print + Wait>(
        &self,
        rt: &R,
        window: &Numbered,
        dates: &mut Option<Dates>,
    ) -> Result<bool, PrintFault> {
        let Ok(span) = span_of(self.alloc, window, dates) else {
            return Err(PrintFault::NoMemory);
        };
        let Ok(text) = text_of(self.alloc, &self.names, window, &span) else {
            return Err(PrintFault::NoMemory);
        };
        if let Some(sink) = &self.sink {
            return Ok(sink.add(rt, text.as_str(), lines_of(text.as_str())));
        }
        match rt.print(text.as_str()) {
            Ok(()) => Ok(true),
            Err(_) => Err(PrintFault::Write),
        }
    }

    fn say_left_out<R: Eprint + Wait>(&self, rt: &R) {
        let left_out = self.handed.lock(rt).take_left_out();
        if left_out != 0 {
            let _ = eprintln!(rt; "windows not printed: {left_out}");
        }
    }
}

/// Returns the number of lines of a text.
pub fn lines_of(text: &str) -> u64 {
    text.as_bytes()
        .iter()
        .filter(|byte| **byte == b'\n')
        .count() as u64
}

// Returns the time of a window, as it stands after its number.
fn span_of(
    alloc: Global,
    window: &Numbered,
    dates: &mut Option<Dates>,
) -> Result<String, AllocError> {
    let mut span = String::new(alloc);
    if let Some(dates) = dates {
        span.push_str(" from ")?;
        dates.push_now(&mut span, window.began.get() as i64)?;
        span.push_str(" to ")?;
        dates.push_now(&mut span, window.ended.get() as i64)?;
    }
    Ok(span)
}

fn text_of(
    alloc: Global,
    names: &Names,
    window: &Numbered,
    span: &str,
) -> Result<String, AllocError>
    ensures { IfOk result (λ text. string_bytes text ≡ window_text names.now window.now.number span.now window.now.reports) }
{
    let mut text = String::new(alloc);
    let reports = window.reports.as_slice();
    push_window(&mut text, names, window.number, span, reports)?;
    Ok(text)
}
