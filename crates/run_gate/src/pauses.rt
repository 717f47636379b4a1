ghost use Rattle.std.specs.Prelude.{◌≡◌, ◌<◌};
ghost use Rattle.std.specs.Bool.{OnTrue, OnFalse};

use relay_workers::Pause;
use std::thread;
use std::time::{Clock, Duration};

/// Pauses of this number of milliseconds, this many after each beginning.
#[derive(Drop)]
pub struct Pauses<'a, R> {
    rt: &'a R,
    millis: u64,
    most: u64,
    left: u64,
}

impl<'a, R: Clock> Pauses<'a, R> {
    /// Makes the pauses. None is made before the first beginning.
    pub fn new(rt: &'a R, millis: u64, most: u64) -> Pauses<'a, R>
        ensures { (result.millis ≡ millis) × (result.most ≡ most) × (result.left ≡ 0) }
    {
        Pauses {
            rt,
            millis,
            most,
            left: 0,
        }
    }
}

impl<'a, R: Clock> Pause for Pauses<'a, R> {
    ghost most = { λ pauses. pauses.most };

    ghost left = { λ pauses. pauses.left };

    fn begin(&mut self) {
        self.left = self.most;
    }

    fn turn(&mut self) -> bool {
        let Some(left) = self.left.checked_sub(1) else {
            return false;
        };
        self.left = left;
        thread::sleep(self.rt, Duration::from_millis(self.millis));
        true
    }
}
