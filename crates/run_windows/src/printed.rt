ghost use Rattle.std.specs.Prelude.{◌≡◌, Some, None};
ghost use Rattle.run_windows.specs.Sums.{plus, with_window};

use crate::sums::Sums;
use dispatch_reports::ServerLine;
use thiserror::Error;

/// Why a window wasn't printed.
#[derive(Clone, Copy, Debug, PartialEq, Eq, Error)]
pub enum PrintFault {
    #[error("no memory")]
    NoMemory,
    #[error("write fault")]
    Write,
}

/// The windows that ended, in numbers.
#[derive(Debug, Drop)]
pub struct PrintedWindows {
    /// The number of windows, which saturates at its greatest value.
    pub windows: u64,
    /// The number of requests that each server was given in them.
    pub sums: Sums,
    /// Why the last window that failed to be printed did.
    pub fault: Option<PrintFault>,
}

impl PrintedWindows {
    /// Makes the numbers before any window.
    pub fn new(sums: Sums) -> PrintedWindows
        ensures { (result.windows ≡ 0) × (result.sums ≡ sums) × (result.fault ≡ None) }
    {
        PrintedWindows {
            windows: 0,
            sums,
            fault: None,
        }
    }

    /// Counts one more window with these lines of the servers. Its number is the count afterwards.
    pub fn count(&mut self, lines: &[ServerLine])
        ensures windows { self.new.windows ≡ plus self.old.windows 1 }
        ensures sums { self.new.sums ≡ with_window lines.now self.old.sums }
        ensures fault { self.new.fault ≡ self.old.fault }
    {
        self.windows = self.windows.saturating_add(1);
        self.sums.add(lines);
    }

    /// Notes that a window couldn't be printed.
    pub fn fail(&mut self, fault: PrintFault)
        ensures { self.new ≡ record self.old { fault = Some fault } }
    {
        self.fault = Some(fault);
    }
}
