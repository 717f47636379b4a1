use std::alloc::{AllocError, Global};

/// A fixed sequence of pseudo-random scripts, from a seed.
#[derive(Drop)]
pub struct Chance {
    pub state: u64,
}

/// The event of a line, without its moment.
enum Event {
    Arrival,
    /// An event of a ticket that is drawn at random.
    Ticketed(&'static str),
    Other(&'static str),
    Roll,
}

// Each event as often as it is to be drawn.
static EVENTS: [Event; 22] = [
    Event::Arrival,
    Event::Arrival,
    Event::Arrival,
    Event::Arrival,
    Event::Arrival,
    Event::Arrival,
    Event::Arrival,
    Event::Arrival,
    Event::Ticketed("done"),
    Event::Ticketed("done"),
    Event::Ticketed("done"),
    Event::Ticketed("done"),
    Event::Ticketed("done"),
    Event::Ticketed("done"),
    Event::Ticketed("fail"),
    Event::Ticketed("abort"),
    Event::Other("tick"),
    Event::Other("check a down"),
    Event::Other("check a up"),
    Event::Other("limit a closed"),
    Event::Other("limit a 1"),
    Event::Roll,
];

const HEADER: &str = "retries 1\nqueue-timeout 40\nserver a 1 2 1 2 1\nserver b.b 2 1 2\n";

impl Chance {
    /// Returns a number below the bound.
    fn below(&mut self, bound: u64) -> u64 {
        self.state = self
            .state
            .wrapping_mul(6_364_136_223_846_793_005)
            .wrapping_add(1_442_695_040_888_963_407);
        (self.state >> 33) % bound.max(1)
    }

    /// Makes a script of two servers and this number of events, of which many are refused.
    pub fn script(&mut self, alloc: Global, events: usize) -> Result<String, AllocError> {
        let mut text = String::from_str(alloc, HEADER)?;
        if self.below(2) == 0 {
            text.push_str("redispatch\n")?;
        }
        let mut moment = 0u64;
        for _ in 0..events {
            moment = moment.saturating_add(self.below(9));
            self.push_event(&mut text, moment)?;
        }
        Ok(text)
    }

    fn push_event(&mut self, text: &mut String, moment: u64) -> Result<(), AllocError> {
        let ticket = self.below(24);
        match EVENTS.get(self.below(22) as usize) {
            Some(Event::Arrival) => self.push_arrival(text, moment),
            Some(Event::Ticketed(words)) => writeln!(text, "{moment} {words} {ticket}"),
            Some(Event::Other(words)) => writeln!(text, "{moment} {words}"),
            Some(Event::Roll) | None => text.push_str("roll\n"),
        }
    }

    fn push_arrival(&mut self, text: &mut String, moment: u64) -> Result<(), AllocError> {
        let class = self.below(3);
        let offset = self.below(60);
        let pin = if self.below(5) == 0 { " a" } else { "" };
        writeln!(text, "{moment} arrive -{class} {offset}{pin}")
    }
}
