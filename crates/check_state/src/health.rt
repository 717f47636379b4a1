ghost use Rattle.std.specs.Prelude.{◌≡◌, ℕ, ◌≤◌, Bool, List, [], ◌∷◌, ◌++◌};
ghost use Rattle.check_state.specs.Results.{is_up_after};
ghost use Rattle.check_state.specs.Standing.{IsHealthOf, results_to_turn, change_between};

use std::marker::Model;

/// The change that a result makes.
#[derive(Clone, Copy, Debug, PartialEq, Eq)]
pub enum Change {
    /// The server is up or down as before.
    Stay,
    WentDown,
    WentUp,
}

/// A server's standing by its health checks, with HAProxy's `rise` and `fall` of a `server` line.
#[derive(Clone, Copy, Debug, PartialEq, Eq)]
pub struct Health {
    rise: u32,
    fall: u32,
    up: bool,
    // The number of the latest results in a row that speak against the standing.
    against: u32,
}

impl Model for Health {
    ghost use Rattle.check_state.specs.Standing.{Standing, IsStanding};

    ghost Value = { Standing };

    ghost view = { λ health. record { rise = health.rise; fall = health.fall; up = health.up; against = health.against } };

    ghost invariant = { λ health. IsStanding (record { rise = health.rise; fall = health.fall; up = health.up; against = health.against }) };

    ghost inverse = { λ standing. record { rise = standing.rise; fall = standing.fall; up = standing.up; against = standing.against } };
}

impl Health {
    /// Makes the health of a server without any result: it is up.
    pub fn new(rise: u32, fall: u32) -> Health
        requires rise { 1 ≤ rise }
        requires fall { 1 ≤ fall }
        ensures { IsHealthOf rise fall [] result }
    {
        Health {
            rise,
            fall,
            up: true,
            against: 0,
        }
    }

    /// Takes the next result of a health check, and returns the change. `O(1)`.
    pub fn result(&mut self, ok: bool) -> Change
        ensures health { (rise fall : ℕ) (results : List Bool) → IsHealthOf rise fall results self.old → IsHealthOf rise fall (results ++ ok ∷ []) self.new }
        ensures change { (rise fall : ℕ) (results : List Bool) → IsHealthOf rise fall results self.old → result ≡ change_between (is_up_after rise fall results) (is_up_after rise fall (results ++ ok ∷ [])) }
    {
        let needed = self.results_to_turn();
        if ok == self.up {
            self.against = 0;
            Change::Stay
        } else if self.against + 1 < needed {
            self.against += 1;
            Change::Stay
        } else {
            self.up = ok;
            self.against = 0;
            if ok { Change::WentUp } else { Change::WentDown }
        }
    }

    // Returns the number of results in a row that reverse the standing.
    fn results_to_turn(&self) -> u32
        ensures { result ≡ results_to_turn self.now }
    {
        if self.up { self.fall } else { self.rise }
    }

    /// Says whether the server is up.
    pub fn up(&self) -> bool
        ensures { (rise fall : ℕ) (results : List Bool) → IsHealthOf rise fall results self.now → result ≡ is_up_after rise fall results }
    {
        self.up
    }
}
