//! A runtime that does what a test needs.

use std::alloc::Global;
use std::fmt::Display;
use std::io::{self, ErrorKind};
use std::net::{IpAddr, Ipv4Addr, Net, SocketAddr, TcpListener, TcpStream};
use std::process::Abort;
use std::sync::Wait;
use std::thread;
use std::thread::Threads;
use std::time::{Clock, Duration};

/// What a look-up of a name gives.
#[derive(Clone, Copy)]
enum LookUp {
    Real,
    /// It takes ten minutes.
    Hangs,
    /// Nobody listens at the address that it gives before this moment; later it gives 127.0.0.1.
    Moves(Duration),
}

/// A runtime like the one below, except for look-ups of names and what is printed.
#[derive(Clone, Copy)]
pub(crate) struct Faked<R> {
    rt: R,
    look_up: LookUp,
    /// Printing a text fails that these words aren't in.
    words: &'static str,
}

impl<R> Faked<R> {
    pub(crate) fn hanging(rt: R) -> Faked<R> {
        Faked {
            rt,
            look_up: LookUp::Hangs,
            words: "",
        }
    }

    pub(crate) fn moving(rt: R, at: Duration) -> Faked<R> {
        Faked {
            rt,
            look_up: LookUp::Moves(at),
            words: "",
        }
    }

    pub(crate) fn picky(rt: R, words: &'static str) -> Faked<R> {
        Faked {
            rt,
            look_up: LookUp::Real,
            words,
        }
    }
}

// Returns the address of a name that moves, which nobody listens at before it did.
fn moved_address(has_moved: bool, port: u16) -> SocketAddr {
    let last = if has_moved { 1 } else { 2 };
    SocketAddr::new(IpAddr::V4(Ipv4Addr::new(127, 0, 0, last)), port)
}

impl<R: Net<Listener = TcpListener, Stream = TcpStream> + Clock> Net for Faked<R> {
    type Stream = TcpStream;

    type Listener = TcpListener;

    fn bind(&self, addr: SocketAddr) -> io::Result<TcpListener> {
        self.rt.bind(addr)
    }

    fn connect(&self, addr: SocketAddr) -> io::Result<TcpStream> {
        self.rt.connect(addr)
    }

    fn lookup_host(&self, host: &str, port: u16, found: &mut [SocketAddr]) -> io::Result<usize> {
        match self.look_up {
            LookUp::Real => self.rt.lookup_host(host, port, found),
            LookUp::Hangs => {
                thread::sleep(&self.rt, Duration::from_secs(600));
                Ok(0)
            }
            LookUp::Moves(at) => {
                let has_moved = at <= self.rt.monotonic()?;
                let Some(first) = found.get_mut(0) else {
                    return Ok(0);
                };
                *first = moved_address(has_moved, port);
                Ok(1)
            }
        }
    }
}

impl<R: Clock> Clock for Faked<R> {
    fn monotonic(&self) -> io::Result<Duration> {
        self.rt.monotonic()
    }

    fn since_1970(&self) -> io::Result<Duration> {
        self.rt.since_1970()
    }

    fn sleep(&self, duration: Duration) {
        self.rt.sleep(duration);
    }
}

impl<R: Print + AllocGlobal> Print for Faked<R> {
    fn print<D: Display + Drop>(&self, value: D) -> io::Result<()> {
        let Ok(text) = value.to_string(self.rt.alloc()) else {
            return Err(io::Error::from(ErrorKind::OutOfMemory));
        };
        if !text.as_str().contains(self.words) {
            return Err(io::Error::from(ErrorKind::BrokenPipe));
        }
        self.rt.print(text.as_str())
    }

    fn println<D: Display + Drop>(&self, _value: D) -> io::Result<()> {
        Err(io::Error::from(ErrorKind::Unsupported))
    }

    fn write_all(&self, _bytes: &[u8]) -> io::Result<()> {
        Err(io::Error::from(ErrorKind::Unsupported))
    }
}

impl<R: Eprint> Eprint for Faked<R> {
    fn eprint<D: Display + Drop>(&self, value: D) -> io::Result<()> {
        self.rt.eprint(value)
    }

    fn eprintln<D: Display + Drop>(&self, value: D) -> io::Result<()> {
        self.rt.eprintln(value)
    }
}

impl<R: AllocGlobal> Alloc for Faked<R> {
    type A = Global;

    fn alloc(&self) -> Global {
        self.rt.alloc()
    }
}

impl<R: Abort> Abort for Faked<R> {
    fn abort(&self) -> ! {
        self.rt.abort()
    }

    fn exit(&self, code: i32) -> ! {
        self.rt.exit(code)
    }

    fn panic<D: Display + Drop>(&self, message: D) -> ! {
        self.rt.panic(message)
    }
}

impl<R: Wait> Wait for Faked<R> {}

impl<R: Threads> Threads for Faked<R> {}
