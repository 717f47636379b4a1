ghost use Rattle.std.specs.Prelude.{◌≡◌, is_some};

/// The token of the fact that at least one byte moved: the only cause for restarting a timeout.
/// Only a driver makes it. It has no `Drop`, so whoever moved bytes has to tell the timeouts.
pub struct Moved {
    told: (),
}

impl Moved {
    pub(crate) fn told(moved: bool) -> Option<Moved>
        ensures { is_some result ≡ moved }
    {
        if moved {
            Some(Moved { told: () })
        } else {
            None
        }
    }

    /// Gives the token up once the timeouts were told.
    pub fn spend(self) {
        let Moved { told: () } = self;
    }
}
