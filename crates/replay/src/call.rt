ghost use Rattle.std.specs.Prelude.{◌≡◌};
ghost use Rattle.replay.specs.Calls.{by_numbers};

use dispatch_core::Event;
use due_key::{Class, Moment, Offset};
use log_texts::{Names, Step};

/// What a step of a script asks of a dispatcher, which knows its servers by numbers.
#[derive(Clone, Copy, Debug)]
pub(crate) enum Call {
    /// A request comes.
    Arrive {
        moment: Moment,
        class: Class,
        offset: Offset,
        pin: Option<usize>,
    },
    /// Any other event happens.
    Event(Event),
    /// The next window of the log begins.
    Roll,
}

/// What a step asks, with the numbers that its names stand for.
pub(crate) fn by_numbers(names: &Names, step: Step) -> Call
    ensures { result ≡ by_numbers names.now step.entry }
{
    match step {
        Step::Arrive {
            moment,
            class,
            offset,
            pin,
        } => Call::Arrive {
            moment,
            class,
            offset,
            pin: pin.map(|name| names.number(&name)),
        },
        Step::Done { moment, ticket } => Call::Event(Event::Done { moment, ticket }),
        Step::Fail { moment, ticket } => Call::Event(Event::Fail { moment, ticket }),
        Step::Abort { moment, ticket } => Call::Event(Event::Abort { moment, ticket }),
        Step::Tick { moment } => Call::Event(Event::Tick { moment }),
        Step::Check {
            moment,
            server,
            answered,
        } => Call::Event(Event::Check {
            moment,
            server: names.number(&server),
            answered,
        }),
        Step::Limit {
            moment,
            server,
            limit,
        } => Call::Event(Event::Limit {
            moment,
            server: names.number(&server),
            limit,
        }),
        Step::Roll => Call::Roll,
    }
}
