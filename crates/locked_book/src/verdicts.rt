ghost use Rattle.std.specs.Prelude.{◌≡◌};
ghost use Rattle.locked_book.specs.Verdicts.{verdict_in};

use base_verdict::Verdict;
use log_entries::Entry;

/// Returns the verdict of an entry, with its ticket: a request takes a slot, or keeps it for
/// another try, or is told why it isn't served. `None` where the entry isn't a verdict.
pub fn verdict_in(entry: Entry) -> Option<(u64, Verdict)>
    ensures { result ≡ verdict_in entry }
{
    match entry {
        Entry::Direct(ticket, server)
        | Entry::Granted(ticket, _, server)
        | Entry::Retried(ticket, server, _) => Some((ticket, Verdict::Serve(server))),
        Entry::Left(ticket, cause) => Some((ticket, Verdict::Told(cause))),
        _ => None,
    }
}
