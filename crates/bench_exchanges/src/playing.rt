//! A client's connection, served by the same calls as in a loop of `run`, on streams that follow a script.
ghost use Rattle.std.specs.Prelude.{◌≡◌, ◌<◌, length};

use crate::record::Record;
use crate::script::Script;
use crate::sides::{Past, Side, Sink, Source, Told};
use crate::site::Site;
use exchange_driver::{Duplex, Line, Moved, Rest, Settings};
use exchange_events::{Rules, TimeoutKind};
use exchange_machine::Terms;
use exchange_seated::{Given, Notice, Posting, Seated, Served, Stage, WaitingExchange};
use grant_board::BoardName;
use relay_http::{Additions, Persistence};
use std::alloc::{AllocError, Global};
use std::net::{IpAddr, Ipv4Addr};
use std::rc::Rc;
use std::sync::ledger::Ledger;

/// A connection of the script.
type Wire = Duplex<Source, Sink>;

/// The most turns of a driver at once.
const TURNS: u32 = 4;

/// The most times that an exchange is driven at one moment.
const MOST: u32 = 1 << 20;

/// The most connections that are opened in place of ones that broke before the server got a byte.
const MOST_REDIALS: u32 = 1;

/// The state of a client's connection beside its exchange.
#[derive(Drop)]
pub(crate) struct Play {
    pub(crate) settings: Settings,
    past: Rc<Past>,
    client: Line<Wire>,
    server: Line<Wire>,
    /// The client sends no more.
    pub(crate) ended: bool,
    redials: u32,
    /// The number of times in a row that there was nothing to do.
    quiet: u32,
    pub(crate) record: Record,
}

/// The state of an exchange after a move.
pub(crate) enum Then<N: BoardName + Ledger> {
    /// There may be more to do.
    Goes(Seated<N>),
    /// There is nothing to do until something happens.
    Rests(Seated<N>),
    /// The exchange waits for a pass.
    Waits(WaitingExchange),
    Over,
}

impl Play {
    pub(crate) fn new(alloc: Global, script: Script) -> Result<Play, AllocError> {
        let aborts = script.terms.aborts;
        let past = Rc::new(alloc, Past::new(script))?;
        let client = Line::new(alloc, wire(alloc, &past, Side::Client, 0)?);
        Ok(Play {
            settings: Settings {
                alloc,
                rules: Rules { aborts },
                turns: TURNS,
            },
            past,
            client,
            server: Line::without_socket(alloc),
            ended: false,
            redials: 0,
            quiet: 0,
            record: Record::new(alloc),
        })
    }

    /// Makes the next move, with all those that happen together with it, and returns their places
    /// in the script; `None` at its end.
    pub(crate) fn advance(&mut self) -> Option<(usize, usize)> {
        let first = self.past.count.get();
        self.past.told_at(first)?;
        let last = self.past.script.end_of(first);
        self.past.count.set(last);
        self.quiet = 0;
        Some((first, last))
    }

    /// Makes the next move alone.
    pub(crate) fn advance_alone(&mut self) -> Option<Told> {
        let place = self.past.count.get();
        self.past.count.set(place.saturating_add(1));
        self.past.told_at(place)
    }

    /// Begins to count for another pass.
    pub(crate) fn begin_pass(&mut self) {
        self.redials = 0;
        self.quiet = 0;
    }

    // Closes the server's connection.
    fn close_server(&mut self) {
        let server = std::mem::replace(&mut self.server, Line::without_socket(self.settings.alloc));
        if let Some(wire) = server.into_socket() {
            self.record.note_sent(wire.writes.taken.as_slice());
        }
    }

    /// Ends the connection, and returns its record.
    pub(crate) fn finish(self) -> Record {
        let mut play = self;
        play.close_server();
        let Play { client, record, .. } = play;
        let mut record = record;
        if let Some(wire) = client.into_socket() {
            let writes = wire.writes;
            record.told = writes.taken;
        }
        record
    }

    fn terms(&self, fresh: bool) -> Terms {
        let terms = self.past.script.terms;
        Terms {
            adds: Additions {
                asks: if terms.asks {
                    Persistence::Persist
                } else {
                    Persistence::Close
                },
                client: if terms.names {
                    Some(IpAddr::V4(Ipv4Addr::from_octets([192, 0, 2, 7])))
                } else {
                    None
                },
            },
            willing: terms.keeps,
            fresh,
        }
    }

    // Opens a connection to a server, which follows the script from this place on.
    fn open_server(&mut self, place: usize) {
        let alloc = self.settings.alloc;
        match wire(alloc, &self.past, Side::Server, place) {
            Ok(wire) => self.server = Line::new(alloc, wire),
            Err(_) => self.record.short = true,
        }
    }
}

fn wire(alloc: Global, past: &Rc<Past>, side: Side, place: usize) -> Result<Wire, AllocError> {
    let source = Source::new(past.clone()?, side, place);
    let sink = Sink::new(alloc, past.clone()?, side, place);
    Ok(Duplex::new(source, sink))
}

/// Drives the exchange until there is nothing to do.
pub(crate) fn go<N: BoardName + Ledger>(
    play: &mut Play,
    site: &mut Site<'_, N>,
    seated: Seated<N>,
) -> Then<N> {
    let mut then = Then::Goes(seated);
    for _ in 0..MOST {
        match then {
            Then::Goes(seated) => then = act(play, site, seated),
            other => return other,
        }
    }
    play.record.short = true;
    then
}

fn act<N: BoardName + Ledger>(
    play: &mut Play,
    site: &mut Site<'_, N>,
    seated: Seated<N>,
) -> Then<N> {
    if play.ended && play.settings.rules.aborts && seated.has_asked() {
        play.ended = false;
        return tell(play, site, seated, Notice::ClientEnd);
    }
    match seated.stage() {
        Stage::Asking | Stage::Forwarding => serve(play, site, seated),
        Stage::Waiting => match seated.into_queued() {
            Ok(queued) => Then::Waits(queued),
            Err(seated) => Then::Rests(seated),
        },
        Stage::Dialing => Then::Rests(seated),
        Stage::Telling => {
            if seated.has_told() {
                end_or_ask_again(play, site, seated)
            } else {
                serve(play, site, seated)
            }
        }
        Stage::Over => {
            end(play, site, seated);
            Then::Over
        }
    }
}

fn end_or_ask_again<N: BoardName + Ledger>(
    play: &mut Play,
    site: &mut Site<'_, N>,
    seated: Seated<N>,
) -> Then<N> {
    match seated.ask_again(play.settings.alloc) {
        Ok(seated) => {
            play.quiet = 0;
            Then::Goes(seated)
        }
        Err(seated) => {
            end(play, site, seated);
            Then::Over
        }
    }
}

/// Ends the exchange at any stage: its pass is posted.
pub(crate) fn end<N: BoardName + Ledger>(
    play: &mut Play,
    site: &mut Site<'_, N>,
    seated: Seated<N>,
) {
    match seated.abandon() {
        Some(posting) => site.post(posting),
        None => {}
    }
    play.close_server();
}

// Reports both streams as ready once more, and drives the exchange.
fn serve<N: BoardName + Ledger>(
    play: &mut Play,
    site: &mut Site<'_, N>,
    seated: Seated<N>,
) -> Then<N> {
    play.client.wake(true, true);
    play.server.wake(true, true);
    let mut buffer = [0u8; 16_384];
    let served = seated.drive(
        play.settings,
        &mut play.client,
        &mut play.server,
        &mut buffer,
    );
    settle(play, site, served)
}

/// Reports an event to the exchange.
pub(crate) fn tell<N: BoardName + Ledger>(
    play: &mut Play,
    site: &mut Site<'_, N>,
    seated: Seated<N>,
    notice: Notice,
) -> Then<N> {
    let served = seated.notify(play.settings, notice);
    settle(play, site, served)
}

fn settle<N: BoardName + Ledger>(
    play: &mut Play,
    site: &mut Site<'_, N>,
    served: Served<N>,
) -> Then<N> {
    let Served {
        seated,
        given,
        client,
        server,
        rest,
    } = served;
    let moved = spent(client) | spent(server);
    if moved || rest == Rest::Again {
        play.quiet = 0;
    } else {
        play.quiet = play.quiet.saturating_add(1);
    }
    match given {
        Given::Retries => redial(play, site, seated),
        given => go_on(play, site, seated, given),
    }
}

fn go_on<N: BoardName + Ledger>(
    play: &mut Play,
    site: &mut Site<'_, N>,
    seated: Seated<N>,
    given: Given<N>,
) -> Then<N> {
    match given {
        Given::Posts(posting) => part(play, site, seated, posting),
        Given::Nothing | Given::Retries => {
            if play.quiet > 1 {
                Then::Rests(seated)
            } else {
                Then::Goes(seated)
            }
        }
    }
}

fn spent(moved: Option<Moved>) -> bool {
    match moved {
        Some(moved) => {
            moved.spend();
            true
        }
        None => false,
    }
}

// Posts the pass.
fn part<N: BoardName + Ledger>(
    play: &mut Play,
    site: &mut Site<'_, N>,
    seated: Seated<N>,
    posting: Posting<N>,
) -> Then<N> {
    if seated.is_answered() {
        play.record.answers = play.record.answers.saturating_add(1);
    }
    play.close_server();
    site.post(posting);
    Then::Goes(seated)
}

// Opens another connection in place of one that broke, once.
fn redial<N: BoardName + Ledger>(
    play: &mut Play,
    site: &mut Site<'_, N>,
    seated: Seated<N>,
) -> Then<N> {
    play.close_server();
    play.redials = play.redials.saturating_add(1);
    if play.redials <= MOST_REDIALS {
        Then::Goes(seated)
    } else {
        let Served {
            seated,
            given,
            client,
            server,
            rest: _,
        } = seated.notify(play.settings, Notice::Unreachable);
        let _ = spent(client) | spent(server);
        play.quiet = 0;
        go_on(play, site, seated, given)
    }
}

/// Reports an event to an exchange that doesn't wait for a pass.
pub(crate) fn hear<N: BoardName + Ledger>(
    play: &mut Play,
    site: &mut Site<'_, N>,
    seated: Seated<N>,
    place: usize,
) -> Then<N> {
    let dials = seated.stage() == Stage::Dialing;
    match play.past.told_at(place) {
        Some(Told::Gone) => tell(play, site, seated, Notice::ClientFailed),
        Some(Told::Ended) => {
            play.ended = true;
            Then::Goes(seated)
        }
        Some(Told::Connected { fresh }) if dials => {
            play.open_server(place.saturating_add(1));
            let terms = play.terms(fresh);
            tell(play, site, seated, Notice::Connected(terms))
        }
        Some(Told::Unreachable) if dials => tell(play, site, seated, Notice::Unreachable),
        Some(Told::Late) => match seated.clock() {
            Some(clock) => tell(play, site, seated, Notice::TimeOver(clock)),
            None => Then::Goes(seated),
        },
        _ => Then::Goes(seated),
    }
}

/// The name of a stage in the output.
pub(crate) fn name_of(stage: Stage) -> &'static str {
    match stage {
        Stage::Asking => "asking",
        Stage::Waiting => "waiting",
        Stage::Dialing => "dialing",
        Stage::Forwarding => "forwarding",
        Stage::Telling => "telling",
        Stage::Over => "over",
    }
}
