use run_windows::PrintFault;
use std::alloc::AllocError;
use std::net::SocketAddrV4;
use thiserror::Error;

/// What went wrong with a sound configuration.
#[derive(Clone, Copy, Debug, PartialEq, Eq, Error)]
pub enum ServeFault {
    /// Memory or a thread was refused.
    #[error("no memory")]
    NoMemory,
    /// The file can't be read, clients can't be accepted, or the clock can't be read.
    #[error("read fault")]
    Read,
    /// The proxy can't listen at the address, for this error of the system.
    #[error("read fault")]
    Listen {
        address: SocketAddrV4,
        code: Option<i32>,
    },
    /// Printing failed.
    #[error("write fault")]
    Write,
    /// A seat of a place didn't come back; no path is known to that.
    #[error("a seat was lost")]
    SeatsLost,
}

impl From<AllocError> for ServeFault {
    ghost use Rattle.std.specs.Prelude.{◌≡◌};
    ghost use Rattle.run_parts.specs.declared.fault.ServeFault.TheVariants.{NoMemory};

    ghost from_gives = { λ _ fault. fault ≡ NoMemory };

    fn from(_: AllocError) -> ServeFault {
        ServeFault::NoMemory
    }
}

impl From<PrintFault> for ServeFault {
    ghost use Rattle.std.specs.Prelude.{◌≡◌};
    ghost use Rattle.run_parts.specs.Faults.{of_telling};

    ghost from_gives = { λ it fault. fault ≡ of_telling it };

    fn from(fault: PrintFault) -> ServeFault {
        match fault {
            PrintFault::NoMemory => ServeFault::NoMemory,
            PrintFault::Write => ServeFault::Write,
        }
    }
}
