use crate::report::ReportLine;
use log_entries::Entry;
use log_texts::Names;

/// The contents of a trace.
#[derive(Drop)]
pub struct Trace {
    /// The names of the servers: those that were known before, then the others in the order in which they come.
    pub names: Names,
    /// The entries of all its windows, one after the other.
    pub entries: Vec<Entry>,
    /// For each roll the number of entries before it.
    pub rolls: Vec<usize>,
    /// The reports, in order.
    pub reports: Vec<ReportLine>,
}
