use crate::fault::DemoFault;
use demo_words::{Looks, Teller, names_of};
use log_entries::Entry;
use run_service::LogCopy;
use std::alloc::Global;
use std::sync::Wait;

/// A reader of a log that prints what comes in.
#[derive(Drop)]
pub(crate) struct Watcher<'a, R> {
    rt: &'a R,
    alloc: Global,
    copy: &'a LogCopy,
    teller: Teller,
}

impl<'a, R: Print + Wait> Watcher<'a, R> {
    pub(crate) fn new(
        rt: &'a R,
        alloc: Global,
        copy: &'a LogCopy,
        looks: Looks,
    ) -> Result<Watcher<'a, R>, DemoFault> {
        Ok(Watcher {
            rt,
            alloc,
            copy,
            teller: Teller::new(alloc, names_of(alloc)?, looks),
        })
    }

    /// Says whether no more entries will come.
    pub(crate) fn is_over(&self) -> bool {
        self.copy.is_over()
    }

    /// Prints the entries since the last look, and returns them.
    pub(crate) fn look(&mut self) -> Result<Vec<Entry>, DemoFault> {
        let later = self.copy.take(self.rt);
        let mut text = String::new(self.alloc);
        for entry in later.as_slice() {
            self.teller.push_line(&mut text, *entry)?;
        }
        match self.rt.print(text.as_str()) {
            Ok(()) => Ok(later),
            Err(_) => Err(DemoFault::Write),
        }
    }
}
