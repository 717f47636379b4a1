//! A client's connection from pass to pass: each pass has a board of its own, with one place.
ghost use Rattle.std.specs.Prelude.{◌≡◌, ◌<◌, ◌≤◌, []};

use crate::playing::{Play, Then, end, go, hear, name_of, tell};
use crate::record::Record;
use crate::script::Script;
use crate::sides::Told;
use crate::site::Site;
use base_verdict::Verdict;
use exchange_seated::{Notice, Seated, WaitingExchange};
use grant_board::{Board, BoardName, RelaySeat};
use std::alloc::{AllocError, Global};
use std::marker::Brand;
use std::sync::ledger::{Blank, Ledger};
use std::thread::Threads;

/// How the next visit begins.
#[derive(Drop)]
enum Entry {
    /// A client connects.
    Comes,
    /// The exchange that waited gets its pass.
    Granted(WaitingExchange),
    /// The exchange that waited is refused.
    Refused(WaitingExchange),
}

/// Plays a script, and returns the record of the client's connection.
pub(crate) fn played(
    rt: &impl Threads,
    alloc: Global,
    script: Script,
) -> Result<Record, AllocError> {
    let most = script.steps.len();
    let mut play = Play::new(alloc, script)?;
    let mut entry = Entry::Comes;
    for _ in 0..=most {
        match visit(rt, alloc, &mut play, entry)? {
            None => break,
            Some(queued) => match verdict_of(&mut play, queued) {
                None => break,
                Some(next) => entry = next,
            },
        }
    }
    Ok(play.finish())
}

// Returns how the exchange that waits goes on; `None` where its client leaves, or the script ends.
fn verdict_of(play: &mut Play, queued: WaitingExchange) -> Option<Entry> {
    for _ in 0..u32::MAX {
        if play.ended && play.settings.rules.aborts {
            return None;
        }
        let Some(what) = play.advance_alone() else {
            play.record.stage = "waiting";
            return None;
        };
        match what {
            Told::Granted => return Some(Entry::Granted(queued)),
            Told::Unserved | Told::Late => return Some(Entry::Refused(queued)),
            Told::Gone => return None,
            Told::Ended => play.ended = true,
            _ => {}
        }
    }
    None
}

// Drives an exchange until it waits for a pass or is over.
fn visit(
    rt: &impl Threads,
    alloc: Global,
    play: &mut Play,
    entry: Entry,
) -> Result<Option<WaitingExchange>, AllocError> {
    let (board, keeper, relay) = Board::open(rt, alloc, 1, &[1])?;
    let mut keeper = keeper;
    if let Entry::Granted(_) = &entry {
        keeper.offer(&board, 0, 1, Verdict::Serve(0));
    }
    play.begin_pass();
    let blank = Blank::new(u64::MAX);
    let queued = enter::<Brand>(play, alloc, (&board, relay, blank), entry)?;
    match keeper.collect(&board, 0) {
        Some(back) => play.record.note_ending(back.ending),
        None => {}
    }
    Ok(queued)
}

fn enter<N: BoardName + Ledger>(
    play: &mut Play,
    alloc: Global,
    opened: (&Board, RelaySeat, Blank),
    entry: Entry,
) -> Result<Option<WaitingExchange>, AllocError>
    requires named { (opened.0.now ≡ N.board) × (opened.1.board ≡ N.board) × (opened.1.view.terms ≡ N.terms) }
    requires idle { opened.1.view.passes ≡ [] }
    requires place { 0 < N.terms.places }
    requires ledger { (opened.2.name ≡ N.name) × (opened.2.parts ≡ N.parts) × (1 ≤ opened.2.parts) }
{
    let (board, relay, blank) = opened;
    let mut site = Site::<N>::open(alloc, board, relay, blank)?;
    let site = &mut site;
    let then = match entry {
        Entry::Comes => Then::Goes(Seated::<N>::new(play.settings.alloc)),
        Entry::Refused(queued) => {
            let seated = queued.unseated::<N>();
            tell(play, site, seated, Notice::Unserved)
        }
        Entry::Granted(queued) => match site.take() {
            None => return Ok(None),
            Some(taken) => Then::Goes(queued.grant(taken)),
        },
    };
    Ok(attend(play, site, then))
}

// Makes the script's moves, one after the other.
fn attend<N: BoardName + Ledger>(
    play: &mut Play,
    site: &mut Site<'_, N>,
    then: Then<N>,
) -> Option<WaitingExchange> {
    let mut then = then;
    for _ in 0..u32::MAX {
        match then {
            Then::Goes(seated) => then = go(play, site, seated),
            Then::Rests(seated) => match play.advance() {
                None => return stop(play, site, Then::Rests(seated)),
                Some((first, last)) => then = hear_all(play, site, seated, first, last),
            },
            over => return stop(play, site, over),
        }
    }
    stop(play, site, then)
}

fn hear_all<N: BoardName + Ledger>(
    play: &mut Play,
    site: &mut Site<'_, N>,
    seated: Seated<N>,
    first: usize,
    last: usize,
) -> Then<N> {
    let mut then = Then::Goes(seated);
    for place in first..last {
        then = match then {
            Then::Goes(seated) | Then::Rests(seated) => hear(play, site, seated, place),
            over => over,
        };
    }
    then
}

// Ends an exchange at the script's end.
fn stop<N: BoardName + Ledger>(
    play: &mut Play,
    site: &mut Site<'_, N>,
    then: Then<N>,
) -> Option<WaitingExchange> {
    match then {
        Then::Waits(queued) => Some(queued),
        Then::Over => None,
        Then::Goes(seated) | Then::Rests(seated) => {
            play.record.stage = name_of(seated.stage());
            end(play, site, seated);
            None
        }
    }
}
