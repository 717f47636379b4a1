//! Tests of checks whose result can't be written.

use crate::assertions::holds;
use config_files::{CheckOutput, check};
use std::alloc::{Allocator, Global};
use std::fmt::Display;
use std::fs::{Metadata, OpenOptions};
use std::rt::Files;
use std::{fs, io};

/// A runtime whose standard output is a pipe that nobody reads.
#[derive(Drop)]
struct Unread<R> {
    rt: R,
}

impl<R> Print for Unread<R> {
    fn print<D: Display + Drop>(&self, _value: D) -> io::Result<()> {
        Err(io::Error::from(io::ErrorKind::BrokenPipe))
    }

    fn println<D: Display + Drop>(&self, _value: D) -> io::Result<()> {
        Err(io::Error::from(io::ErrorKind::BrokenPipe))
    }

    fn write_all(&self, _bytes: &[u8]) -> io::Result<()> {
        Err(io::Error::from(io::ErrorKind::BrokenPipe))
    }
}

impl<R: Eprint> Eprint for Unread<R> {
    fn eprint<D: Display + Drop>(&self, value: D) -> io::Result<()> {
        self.rt.eprint(value)
    }

    fn eprintln<D: Display + Drop>(&self, value: D) -> io::Result<()> {
        self.rt.eprintln(value)
    }
}

impl<R: AllocGlobal> Alloc for Unread<R> {
    type A = Global;

    fn alloc(&self) -> Global {
        self.rt.alloc()
    }
}

impl<R: Files> Files for Unread<R> {
    type File = R::File;

    type Dir = R::Dir;

    fn open_file(&self, how: &OpenOptions, path: &str) -> io::Result<R::File> {
        self.rt.open_file(how, path)
    }

    fn open_dir(&self, path: &str) -> io::Result<R::Dir> {
        self.rt.open_dir(path)
    }

    fn metadata(&self, path: &str) -> io::Result<Metadata> {
        self.rt.metadata(path)
    }

    fn symlink_metadata(&self, path: &str) -> io::Result<Metadata> {
        self.rt.symlink_metadata(path)
    }

    fn copy(&self, from: &str, to: &str) -> io::Result<u64> {
        self.rt.copy(from, to)
    }

    fn rename(&self, from: &str, to: &str) -> io::Result<()> {
        self.rt.rename(from, to)
    }

    fn remove_file(&self, path: &str) -> io::Result<()> {
        self.rt.remove_file(path)
    }

    fn create_dir(&self, path: &str) -> io::Result<()> {
        self.rt.create_dir(path)
    }

    fn remove_dir(&self, path: &str) -> io::Result<()> {
        self.rt.remove_dir(path)
    }

    fn remove_dir_all<B: Allocator>(&self, alloc: B, path: &str) -> io::Result<()> {
        self.rt.remove_dir_all(alloc, path)
    }
}

#[test]
fn a_check_whose_result_cannot_be_written_fails(rt: HostRuntime) {
    let path = "unwritten_check_test.cfg";
    let unread = Unread { rt: &rt };
    for (text, name) in [
        ("listen w\nbind :80\nserver a h:80\n", "good"),
        ("listen w\nbind\n", "faulty"),
    ] {
        let written = fs::write(&rt, path, text.as_bytes());
        holds(&rt, written.is_ok(), "file", name);
        let status = check(&unread, path, CheckOutput::Nothing);
        holds(&rt, status == 1, "status", name);
    }
    let _ = fs::remove_file(&rt, path);
}
