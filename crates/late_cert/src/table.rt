ghost use Rattle.late_cert.specs.Table.{IsTable};

use crate::worsts::Worsts;

/// The number of classes.
pub(crate) const CLASSES: usize = 4095;

/// The greatest lateness so far of the grants of each queue and class, kept while the grants are
/// made: `certify` finds the same in a whole log at once. Questions and grants take `O(1)`.
#[derive(Drop)]
pub struct Running {
    // A row for each class, the lowest class first, where there is room for it.
    pub(crate) table: Vec<Option<Worsts>>,
    /// The number of servers, each with a queue.
    pub(crate) servers: usize,
    ghost whole: { IsTable servers table.items },
}
