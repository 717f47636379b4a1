//! Clients that left as their requests waited.

ghost use Rattle.std.specs.Prelude.{◌≡◌, IfSome, is_some};
ghost use Rattle.loop_shared.specs.Leaving.{tells_leaving};

use exchange_driver::Live;
use loop_table::Subject;
use proxy_config::Config;
use run_gate::{Told, told_of};
use std::os::fd::AsRawFd;

/// The client of a waiting request has left: the system told so of its connection.
#[derive(Clone, Copy)]
pub struct HasLeft {
    // They are private, so no other module makes one.
    subject: Subject,
    told: Told,
}

// Asks the system whether the client has left whose request this is.
pub(crate) fn left(live: &Live, subject: Subject, config: &Config) -> Option<HasLeft>
    ensures { IfSome result (λ it. it.subject ≡ subject) }
{
    left_as(told_of(live.stream().as_raw_fd()), subject, config)
}

// Says that the client has left whose request this is, where that was told of its connection.
fn left_as(told: Told, subject: Subject, config: &Config) -> Option<HasLeft>
    ensures left { is_some result ≡ tells_leaving config.now told }
    ensures its { IfSome result (λ it. (it.subject ≡ subject) × (it.told ≡ told)) }
{
    if told.is_end(config) {
        Some(HasLeft { subject, told })
    } else {
        None
    }
}
