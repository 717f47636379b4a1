ghost use Rattle.std.specs.Prelude.{◌≡◌, ℕ, ◌<◌, ◌⊎◌, ◌↔◌, IsTrue};

use std::marker::Model;

/// A set of servers, by number from 0 to 63.
#[derive(Clone, Debug, Drop)]
pub struct Set64 {
    // The bit of each server's number says whether it is in the set.
    marks: u64,
}

impl Model for Set64 {
    ghost use Rattle.std.specs.Prelude.{ℕ};

    ghost Value = { ℕ };

    ghost view = { λ set. set.marks };
}

impl Set64 {
    ghost use Rattle.server_pick.specs.Sets.{has, HasOneMore};

    /// Makes an empty set.
    pub fn new() -> Set64
        ensures { (server : ℕ) → IsTrue (has result server) → ⊥ }
    {
        Set64 { marks: 0 }
    }

    /// Makes the set of this server alone.
    pub fn of(server: usize) -> Set64
        requires { server < 64 }
        ensures { (other : ℕ) → IsTrue (has result other) ↔ (other ≡ server) }
    {
        let mut set = Set64::new();
        set.insert(server);
        set
    }

    /// Says whether it has no server.
    pub fn is_empty(&self) -> bool
        ensures { IsTrue result ↔ ((server : ℕ) → IsTrue (has self.now server) → ⊥) }
    {
        self.marks == 0
    }

    /// Says whether it has a server.
    #[tactic(auto, using(crate::proofs::Marks::none_above))]
    pub fn contains(&self, server: usize) -> bool
        ensures { result ≡ has self.now server }
    {
        let marks = self.marks;
        server < 64 && (marks >> server) & 1 == 1
    }

    /// Adds a server where it is wanted.
    pub(crate) fn insert_if(&mut self, server: usize, wanted: bool)
        requires { server < 64 }
        ensures { HasOneMore server wanted self.old self.new }
    {
        if wanted {
            self.insert(server);
        }
    }

    /// Adds a server.
    pub fn insert(&mut self, server: usize)
        requires { server < 64 }
        ensures { (other : ℕ) → IsTrue (has self.new other) ↔ (IsTrue (has self.old other) ⊎ (other ≡ server)) }
    {
        self.marks |= 1 << server;
    }
}
