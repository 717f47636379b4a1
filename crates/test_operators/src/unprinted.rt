//! Tests of windows that find no room where they are to be printed.

use crate::printing::window;
use due_key::Moment;
use log_sink::{Sink, Way};
use log_texts::Names;
use run_windows::WindowPrinter;
use std::fmt::Display;
use std::io;
use std::io::ErrorKind;
use std::sync::{Arc, Mutex, Wait};

const LINE: &str = "sixteen letters\n";

/// The number of such lines that fill a sink.
const LINES: u32 = 1 << 16;

/// A runtime that notes what goes to standard error.
#[derive(Drop)]
struct Noting<'a, R> {
    rt: &'a R,
    errors: &'a Mutex<String>,
}

impl<'a, R: Print> Print for Noting<'a, R> {
    fn print<D: Display + Drop>(&self, value: D) -> io::Result<()> {
        self.rt.print(value)
    }

    fn println<D: Display + Drop>(&self, value: D) -> io::Result<()> {
        self.rt.println(value)
    }

    fn write_all(&self, bytes: &[u8]) -> io::Result<()> {
        self.rt.write_all(bytes)
    }
}

impl<'a, R: Wait + AllocGlobal> Eprint for Noting<'a, R> {
    fn eprint<D: Display + Drop>(&self, value: D) -> io::Result<()> {
        let Ok(said) = value.to_string(self.rt.alloc()) else {
            return Err(io::Error::from(ErrorKind::OutOfMemory));
        };
        self.errors
            .lock(self.rt)
            .push_str(said.as_str())
            .or(Err(io::Error::from(ErrorKind::OutOfMemory)))
    }

    fn eprintln<D: Display + Drop>(&self, value: D) -> io::Result<()> {
        self.eprint(value)?;
        self.eprint("\n")
    }
}

impl<'a, R: Wait> Wait for Noting<'a, R> {}

#[test]
fn windows_that_find_no_room_are_counted(rt: HostRuntime) {
    let alloc = rt.alloc();
    let sink = Sink::new(alloc, &Way::Output).expect(&rt, "memory");
    for _ in 0..LINES {
        sink.add(&rt, LINE, 1);
    }
    let sink = Arc::new(alloc, sink).expect(&rt, "memory");
    let names = Names::new(Vec::new(alloc));
    let printer = WindowPrinter::new(alloc, names, 1)
        .expect(&rt, "memory")
        .onto(Some(sink));
    printer.hand_over(&rt, window(&rt, alloc, 1), Moment::zero());
    printer.hand_over(&rt, window(&rt, alloc, 1), Moment::zero());
    printer.end(&rt);
    let errors = Mutex::new(String::new(alloc));
    let noting = Noting {
        rt: &rt,
        errors: &errors,
    };
    printer.print_all(&noting);
    assert_eq!(rt;
        errors.into_inner().as_str(),
        "windows not printed: 1\nwindows not printed: 1\n"
    );
}
