ghost use Rattle.std.specs.Prelude.{◌≡◌, true, false, length, map, Some, None, slice_get, slice_set, IfOk};
ghost use Rattle.run_control.specs.Wishes.{intake_for, with_intake, as_at_first, wish_as_configured};

use log_entries::Intake;
use std::alloc::{AllocError, Global};
use std::marker::Model;

/// The wish for a server: how many requests it is to take.
#[derive(Clone, Copy, Debug, PartialEq, Eq)]
pub struct IntakeWish {
    /// The configuration's limit; 0 is without limit.
    pub first: u32,
    /// The limit that was set last.
    pub limit: u32,
    /// It is to take no requests.
    pub drained: bool,
}

/// The wishes for the servers, in file order, and whether a pause keeps all of them closed.
#[derive(Debug, Drop)]
pub struct Wishes {
    list: Vec<IntakeWish>,
    paused: bool,
}

impl Model for Wishes {
    ghost use Rattle.run_control.specs.Wished.{Wished};

    ghost Value = { Wished };

    ghost view = { λ wishes. record { list = wishes.list.items; paused = wishes.paused } };
}

impl Wishes {
    /// Makes the wishes of a configuration's limits.
    pub fn new(alloc: Global, limits: &[u32]) -> Result<Wishes, AllocError>
        ensures { IfOk result (λ wishes. wishes ≡ record { list = map wish_as_configured limits.now; paused = false }) }
    {
        let mut list = Vec::new(alloc);
        for limit in limits {
            list.push(IntakeWish {
                first: *limit,
                limit: *limit,
                drained: false,
            })?;
        }
        Ok(Wishes {
            list,
            paused: false,
        })
    }

    /// Returns the number of servers.
    pub fn len(&self) -> usize
        ensures { result ≡ length self.now.list }
    {
        self.list.len()
    }

    pub fn is_paused(&self) -> bool
        ensures { result ≡ self.now.paused }
    {
        self.paused
    }

    /// Returns how many requests a server is to take now; `None` where there is no such server.
    pub fn intake(&self, server: usize) -> Option<Intake>
        ensures { result ≡ intake_for self.now server }
    {
        let wish = self.list.get(server)?;
        if self.paused || wish.drained {
            Some(Intake::Closed)
        } else {
            Some(Intake::Open(wish.limit))
        }
    }

    /// Sets how many requests a server is to take, as soon as no pause closes it.
    pub fn limit(&mut self, server: usize, intake: Intake)
        ensures wish { (wish : IntakeWish) → slice_get self.old.list server ≡ Some wish → self.new.list ≡ slice_set self.old.list server (with_intake intake wish) }
        ensures none { slice_get self.old.list server ≡ None → self.new.list ≡ self.old.list }
        ensures paused { self.new.paused ≡ self.old.paused }
    {
        if let Some(wish) = self.list.get_mut(server) {
            *wish = with_intake(intake, *wish);
        }
    }

    /// Sets a server back to the configuration's limit, as soon as no pause closes it.
    pub fn ready(&mut self, server: usize)
        ensures wish { (wish : IntakeWish) → slice_get self.old.list server ≡ Some wish → self.new.list ≡ slice_set self.old.list server (as_at_first wish) }
        ensures none { slice_get self.old.list server ≡ None → self.new.list ≡ self.old.list }
        ensures paused { self.new.paused ≡ self.old.paused }
    {
        if let Some(wish) = self.list.get_mut(server) {
            *wish = as_at_first(*wish);
        }
    }

    /// Closes all servers by a pause.
    pub fn pause(&mut self)
        ensures { self.new ≡ record self.old { paused = true } }
    {
        self.paused = true;
    }

    /// Ends the pause.
    pub fn resume(&mut self)
        ensures { self.new ≡ record self.old { paused = false } }
    {
        self.paused = false;
    }
}

fn with_intake(intake: Intake, wish: IntakeWish) -> IntakeWish
    ensures { result ≡ with_intake intake wish }
{
    match intake {
        Intake::Closed => IntakeWish {
            drained: true,
            ..wish
        },
        Intake::Open(limit) => IntakeWish {
            limit,
            drained: false,
            ..wish
        },
    }
}

fn as_at_first(wish: IntakeWish) -> IntakeWish
    ensures { result ≡ as_at_first wish }
{
    IntakeWish {
        limit: wish.first,
        drained: false,
        ..wish
    }
}
