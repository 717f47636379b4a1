//! What tells a thread to stop.

ghost use Rattle.std.specs.Prelude.{◌≡◌, OnSome, IfSome};

use std::sync::{OnceLock, OnceToken};

/// What tells a thread to stop.
pub trait StopFlag {
    /// What shows that it was told to.
    type Sign: Drop;

    /// That it was told to.
    ghost told: { Self → Type 0 };

    /// Returns what shows that it was told to, where it was.
    fn sign(&self) -> Option<Self::Sign>
        ensures { OnSome result (told self.now) };
}

/// A flag that tells threads to stop. Nobody can take that back.
#[derive(Drop)]
pub struct Stop {
    told: OnceLock<()>,
}

impl Stop {
    /// Makes a flag that tells nobody to stop.
    pub fn new() -> Stop {
        Stop {
            told: OnceLock::new(),
        }
    }

    /// Tells all threads that view it.
    pub fn tell(&self) {
        let _ = self.told.try_set(());
    }

    /// Returns a thread's view of it.
    pub fn view(&self) -> StopView<'_>
        ensures { result.told.now ≡ self.now.told }
    {
        StopView { told: &self.told }
    }
}

/// A thread's view of a flag.
#[derive(Clone, Copy)]
pub struct StopView<'a> {
    told: &'a OnceLock<()>,
}

impl<'a> StopFlag for StopView<'a> {
    type Sign = OnceToken<'a, ()>;

    // What threads wrote to a flag has no name in a clause: the sign shows it.
    ghost told = { λ view. Unit {0} };

    fn sign(&self) -> Option<OnceToken<'a, ()>>
        ensures told { OnSome result (Unit {0}) }
        ensures its { IfSome result (λ sign. sign.of ≡ self.now.told.now.id) }
    {
        self.told.witness()
    }
}
