//! Registration of streams with a poll.

ghost use Rattle.std.specs.Prelude.{◌≡◌, false, is_some};

use exchange_driver::{Line, Live};
use loop_table::Subject;
use mio::unix::SourceFd;
use mio::{Interest, Registry, Token};
use std::os::fd::RawFd;

/// A poll watches a stream, or there is no stream to watch.
#[derive(Clone, Copy)]
pub struct Watched {
    // It is private, so no other module makes one.
    seen: (),
}

/// Has a poll watch a stream. `None` where the system refuses that, or the subject has no number.
pub fn watch(
    registry: &Registry,
    fd: RawFd,
    subject: Subject,
    interest: Interest,
) -> Option<Watched> {
    let mut source = SourceFd(&fd);
    let token = Token(subject.number()?);
    let is_watched = registry.register(&mut source, token, interest).is_ok()
        || registry.reregister(&mut source, token, interest).is_ok();
    watched_if(is_watched)
}

/// The same for a stream that it may watch already.
pub fn watch_anew(
    registry: &Registry,
    fd: RawFd,
    subject: Subject,
    interest: Interest,
) -> Option<Watched> {
    let mut source = SourceFd(&fd);
    let token = Token(subject.number()?);
    let is_watched = registry.reregister(&mut source, token, interest).is_ok()
        || registry.register(&mut source, token, interest).is_ok();
    watched_if(is_watched)
}

// Says that nothing is to be watched.
pub(crate) fn nothing_to_watch(_line: &Line<Live>) -> Watched
    requires { _line.now.there ≡ false }
{
    Watched { seen: () }
}

fn watched_if(is_watched: bool) -> Option<Watched>
    ensures { is_some result ≡ is_watched }
{
    if is_watched {
        Some(Watched { seen: () })
    } else {
        None
    }
}
