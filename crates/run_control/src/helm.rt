use crate::steered::Steered;
use crate::stopping::StopStage;
use crate::wishes::Wishes;
use log_entries::{Intake, Refusal};
use std::alloc::{AllocError, Global};

/// The executor of a proxy's commands: the wishes for its servers, and the stage of its end.
#[derive(Drop)]
pub struct CommandExecutor<P: Steered + Drop> {
    pub(crate) alloc: Global,
    pub(crate) proxy: P,
    pub(crate) wishes: Wishes,
    pub(crate) ending: StopStage,
}

impl<P: Steered + Drop> CommandExecutor<P> {
    /// Makes the helm of a proxy whose servers have these limits.
    pub fn new(alloc: Global, proxy: P, limits: &[u32]) -> Result<CommandExecutor<P>, AllocError> {
        Ok(CommandExecutor {
            alloc,
            proxy,
            wishes: Wishes::new(alloc, limits)?,
            ending: StopStage::Serves,
        })
    }

    /// Sets a server's limit by its wish.
    pub(crate) fn apply(&mut self, server: usize) -> Result<(), Refusal> {
        match self.wishes.intake(server) {
            Some(intake) => self.proxy.limit(server, intake),
            None => Ok(()),
        }
    }

    /// The same for all servers. Returns the first refusal; the servers behind it are tried too.
    pub(crate) fn apply_all(&mut self) -> Result<(), Refusal> {
        let mut applied = Ok(());
        for server in 0..self.wishes.len() {
            let one = self.apply(server);
            applied = applied.and(one);
        }
        applied
    }

    /// Says whether a server is to take no requests.
    pub(crate) fn is_closed(&self, server: usize) -> bool {
        self.wishes.intake(server) == Some(Intake::Closed)
    }
}
