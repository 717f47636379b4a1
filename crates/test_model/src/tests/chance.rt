use super::calls::Call;
use super::state::Plain;
use due_key::{Class, Moment, Offset};
use log_entries::Intake;

/// A fixed sequence of pseudo-random moments and calls.
#[derive(Drop)]
pub struct Chance {
    state: u64,
    now: Moment,
}

impl Chance {
    pub fn new(state: u64) -> Chance {
        Chance {
            state,
            now: Moment::zero(),
        }
    }

    /// Returns a number below the bound.
    fn below(&mut self, bound: u64) -> u64 {
        self.state = self
            .state
            .wrapping_mul(6_364_136_223_846_793_005)
            .wrapping_add(1_442_695_040_888_963_407);
        (self.state >> 33) % bound.max(1)
    }

    /// Returns a moment: most are later than the one before, and some earlier.
    pub fn moment(&mut self) -> Moment {
        let later = self.now.get().saturating_add(self.below(8));
        self.now = Moment::new(later).unwrap_or(self.now);
        let earlier = self.now.get().saturating_sub(self.below(3));
        Moment::new(earlier).unwrap_or(self.now)
    }

    /// Returns a number from `-bound` to `bound`.
    fn around(&mut self, bound: u32) -> i64 {
        let wide = u64::from(bound).saturating_mul(2).saturating_add(1);
        let number = self.below(wide).min(u64::from(u32::MAX));
        number as i64 - i64::from(bound)
    }

    /// Returns one of the servers, or now and then none.
    fn server(&mut self, plain: &Plain) -> usize {
        let servers = plain.servers() as u64;
        if self.below(64) == 0 {
            plain.servers()
        } else {
            self.below(servers) as usize
        }
    }

    /// Returns the ticket of a request that waits, or of one that doesn't; now and then any ticket.
    fn ticket(&mut self, plain: &Plain, waits: bool) -> u64 {
        let nth = self.below(plain.count(waits));
        match plain.nth_ticket(waits, nth) {
            Some(ticket) if self.below(8) > 0 => ticket,
            _ => self.below(plain.ticket.saturating_add(2)),
        }
    }

    /// Returns a call that mostly suits the dispatcher's state.
    pub fn call(&mut self, plain: &Plain) -> Call {
        match self.below(16) {
            0..=4 => self.arrival(plain),
            5..=9 => Call::Done(self.ticket(plain, false)),
            10..=11 => Call::Fail(self.ticket(plain, false)),
            12 => Call::Abort(self.ticket(plain, true)),
            13 => Call::Tick,
            14 if self.below(4) == 0 => {
                let server = self.server(plain);
                Call::Limit(server, self.intake())
            }
            _ => {
                let server = self.server(plain);
                Call::Check(server, self.below(5) > 1)
            }
        }
    }

    // Returns closed, open up to three, or open without limit.
    fn intake(&mut self) -> Intake {
        match self.below(5).min(4) {
            4 => Intake::Closed,
            limit => Intake::Open(limit as u32),
        }
    }

    /// Says whether the next window begins, now and then.
    pub fn rolls(&mut self) -> bool {
        self.below(1024) == 0
    }

    fn arrival(&mut self, plain: &Plain) -> Call {
        let class = Class::clamp(self.around(2));
        let offset = Offset::clamp(self.around(40));
        let pin = if self.below(3) == 0 {
            Some(self.server(plain))
        } else {
            None
        };
        Call::Arrive(class, offset, pin)
    }
}
