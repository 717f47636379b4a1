use run_service::ServeFault;
use std::alloc::AllocError;
use std::io;
use thiserror::Error;

/// Why a demo failed.
#[derive(Clone, Copy, Debug, Error)]
pub enum DemoFault {
    #[error("no memory")]
    NoMemory,
    #[error("a thread can't be started: let this user have more processes (ulimit -u), and try again")]
    NoThread,
    #[error("write fault: what is printed was refused")]
    Write,
    #[error("no socket of 127.0.0.1 is to be had: {0}; the demo wants some 40 open files (ulimit -n)")]
    Socket(io::Error),
    #[error("the clock can't be read: {0}")]
    Clock(io::Error),
    #[error("the proxy ended: {0}")]
    Proxy(ServeFault),
    #[error("the picture can't be written: {0}; try again in a directory that you may write")]
    Picture(io::Error),
    #[error("only {0} of 12 requests were answered in seven seconds: try again when the machine has less to do")]
    Unanswered(usize),
    #[error("of two that waited together the one with the larger key got its slot first")]
    OutOfOrder,
}

impl From<AllocError> for DemoFault {
    ghost use Rattle.std.specs.Prelude.{◌≡◌};
    ghost use Rattle.demo.specs.declared.fault.DemoFault.TheVariants.{NoMemory};

    ghost from_gives = { λ _ fault. fault ≡ NoMemory };

    fn from(_: AllocError) -> DemoFault {
        DemoFault::NoMemory
    }
}
