//! A test of files that are opened again.

use crate::{Access, Extent, Logs, RequestLog};
use log_lines::Format;
use log_sink::{Sink, Way};
use std::alloc::{AllocError, Allocator, Global};
use std::cell::Cell;
use std::fmt::Display;
use std::fs::{Metadata, OpenOptions};
use std::io;
use std::rt::Files;
use std::sync::{Arc, Wait};
use std::test::Fail;
use std::time::{Clock, Duration, Instant};

/// A runtime whose files can't be opened, which counts how often that is tried. Its clock is half a
/// minute later at each look, so that nobody waits.
#[derive(Drop)]
struct Fileless<R> {
    rt: R,
    opened: Cell<u32>,
    seconds: Cell<u64>,
}

fn missing() -> io::Error {
    io::Error::from(io::ErrorKind::NotFound)
}

impl<R: Files> Files for Fileless<R> {
    type File = R::File;

    type Dir = R::Dir;

    fn open_file(&self, _how: &OpenOptions, _path: &str) -> io::Result<R::File> {
        self.opened.set(self.opened.get().saturating_add(1));
        Err(missing())
    }

    fn open_dir(&self, _path: &str) -> io::Result<R::Dir> {
        Err(missing())
    }

    fn metadata(&self, _path: &str) -> io::Result<Metadata> {
        Err(missing())
    }

    fn symlink_metadata(&self, _path: &str) -> io::Result<Metadata> {
        Err(missing())
    }

    fn copy(&self, _from: &str, _to: &str) -> io::Result<u64> {
        Err(missing())
    }

    fn rename(&self, _from: &str, _to: &str) -> io::Result<()> {
        Err(missing())
    }

    fn remove_file(&self, _path: &str) -> io::Result<()> {
        Err(missing())
    }

    fn create_dir(&self, _path: &str) -> io::Result<()> {
        Err(missing())
    }

    fn remove_dir(&self, _path: &str) -> io::Result<()> {
        Err(missing())
    }

    fn remove_dir_all<B: Allocator>(&self, _alloc: B, _path: &str) -> io::Result<()> {
        Err(missing())
    }
}

impl<R: Print> Print for Fileless<R> {
    fn print<D: Display + Drop>(&self, value: D) -> io::Result<()> {
        self.rt.print(value)
    }

    fn println<D: Display + Drop>(&self, value: D) -> io::Result<()> {
        self.rt.println(value)
    }

    fn write_all(&self, bytes: &[u8]) -> io::Result<()> {
        self.rt.write_all(bytes)
    }
}

impl<R: Eprint> Eprint for Fileless<R> {
    fn eprint<D: Display + Drop>(&self, value: D) -> io::Result<()> {
        self.rt.eprint(value)
    }

    fn eprintln<D: Display + Drop>(&self, value: D) -> io::Result<()> {
        self.rt.eprintln(value)
    }
}

impl<R: Clock> Clock for Fileless<R> {
    fn monotonic(&self) -> io::Result<Duration> {
        let seconds = self.seconds.get().saturating_add(30);
        self.seconds.set(seconds);
        Ok(Duration::from_secs(seconds))
    }

    fn since_1970(&self) -> io::Result<Duration> {
        self.rt.since_1970()
    }
}

impl<R: Wait> Wait for Fileless<R> {}

const NAMES: [&str; 2] = ["access.log", "events.log"];

fn way(alloc: Global, name: &str) -> Result<Way, AllocError> {
    Ok(Way::File(String::from_str(alloc, name)?))
}

fn sink(alloc: Global, name: &str) -> Result<Arc<Sink>, AllocError> {
    Ok(Arc::new(alloc, Sink::new(alloc, &way(alloc, name)?)?)?)
}

fn log_of(
    alloc: Global,
    access: &Arc<Sink>,
    events: &Arc<Sink>,
    start: Instant,
) -> Result<Option<RequestLog>, AllocError> {
    let logs = Logs {
        access: Some(Access {
            sink: access.clone()?,
            format: Format::Text,
            has_windows: false,
        }),
        events: Some(events.clone()?),
        numbers: None,
    };
    let extent = Extent {
        servers: 1,
        loops: 1,
        start,
        base: 0,
    };
    RequestLog::new(alloc, logs, extent)
}

#[test]
fn the_files_of_both_logs_are_opened_again(rt: HostRuntime) -> Result<(), Fail> {
    let alloc = rt.alloc();
    let sinks = [sink(alloc, NAMES[0])?, sink(alloc, NAMES[1])?];
    let log = log_of(alloc, &sinks[0], &sinks[1], Instant::now(&rt)?)?;
    let log = log.expect(&rt, "a log");
    let fileless = Fileless {
        rt: &rt,
        opened: Cell::new(0),
        seconds: Cell::new(0),
    };
    assert!(rt; log.reopen(&rt));
    let _ = log.close(&fileless);
    for (sink, name) in sinks.iter().zip(NAMES) {
        fileless.opened.set(0);
        sink.write_to(&fileless, &rt, way(alloc, name)?, Sink::room(alloc)?);
        // A writer opens its file once when it begins.
        assert_eq!(rt; fileless.opened.get(), 2, "{}", name);
    }
    Ok(())
}
