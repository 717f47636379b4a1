ghost use Rattle.std.specs.Prelude.{◌≡◌, IfOk, IfSome, IfNone, OnErr};
ghost use Rattle.log_entries.specs.Histories.{next_window};
ghost use Rattle.dispatch_state.specs.Histories.{HasEntryRoom};
ghost use Rattle.late_cert.specs.Certificates.{IsCertified};
ghost use Rattle.dispatch_reports.specs.Lines.{AreLines};

use crate::dispatcher::ReportingCore;
use crate::lines::{ServerLine, server_line_of};
use due_key::Key;
use late_cert::{Reports, certify};
use pend_queue::PendQueue;
use std::alloc::{AllocError, Global};

/// What is told of a window that ended: its reports, and a line for each server in file order. It has
/// no `Drop`: whoever ends a window hands this on, or takes it apart.
pub struct EndedWindow {
    pub reports: Reports,
    pub servers: Vec<ServerLine>,
}

impl<Q: PendQueue<Key, usize>> ReportingCore<Q> {
    /// Returns the reports of the present window, each with its critical set. `O(n log n)` in its
    /// grants; fails only where memory is refused.
    pub fn report(&self, alloc: Global) -> Result<Reports, AllocError>
        ensures { IfOk result (IsCertified self.now) }
    {
        certify(alloc, self.core.log())
    }

    /// Returns a line for each server in file order, of the present window. `O(s n)` in the servers
    /// and entries; fails only where memory is refused.
    pub fn servers(&self, alloc: Global) -> Result<Vec<ServerLine>, AllocError>
        ensures { IfOk result (λ lines. AreLines self.now lines.items) }
    {
        let mut lines = Vec::new(alloc);
        for server in 0..self.core.servers() {
            lines.push(server_line_of(&self.core, server))?;
        }
        Ok(lines)
    }

    /// Begins the next window where the log has no room for an event, and returns what is told of
    /// the one that ended; `None` where it has room. Where memory is refused nothing changes.
    pub fn make_room(&mut self, alloc: Global) -> Result<Option<EndedWindow>, AllocError>
        ensures none { IfOk result (λ found. IfNone found (HasEntryRoom self.old × (self.new ≡ self.old))) }
        ensures some { IfOk result (λ found. IfSome found (λ window. (HasEntryRoom self.old → ⊥) × IsCertified self.old window.reports × AreLines self.old window.servers.items × (self.new ≡ next_window self.old))) }
        ensures err { OnErr result (self.new ≡ self.old) }
    {
        if self.has_room() {
            return Ok(None);
        }
        let reports = self.report(alloc)?;
        let servers = self.servers(alloc)?;
        self.roll();
        Ok(Some(EndedWindow { reports, servers }))
    }
}
