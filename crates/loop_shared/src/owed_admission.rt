use crate::first_outside::NothingToAdmit;
use crate::stopping::Over;

/// A place may have come free for a request that waits outside for one, so somebody has to look
/// there. It has no `Drop`: it ends where nobody waits outside, or no place is free for the first
/// one (`Shared::admit_first`), or with its loop.
pub struct OwedAdmission {
    // It is private, so no other module makes one.
    seen: (),
}

impl OwedAdmission {
    pub(crate) fn new() -> OwedAdmission {
        OwedAdmission { seen: () }
    }

    /// Makes one of two: one look serves both.
    pub fn and(self, other: OwedAdmission) -> OwedAdmission {
        let OwedAdmission { seen: _ } = other;
        self
    }

    /// Ends it with its loop: nobody is admitted once the proxy has ended.
    pub fn end_last(self, _over: Over) {
        let OwedAdmission { seen: _ } = self;
    }

    // Ends it: somebody looked outside.
    pub(crate) fn end(self, _nothing: &NothingToAdmit) {
        let OwedAdmission { seen: _ } = self;
    }
}
