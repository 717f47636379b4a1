ghost use Rattle.std.specs.Prelude.{◌≡◌, ◌-◌, ◌⊎◌, ◌≤◌, ◌++◌, List, [], length, min, take, drop, false};
ghost use Rattle.exchange_machine.specs.Histories.{ExchangeHistory, client_came, nothing_yet};
ghost use Rattle.exchange_machine.specs.Reasons.{Shows};
ghost use Rattle.exchange_machine.specs.Requests.{MayCome};
ghost use Rattle.exchange_machine.specs.Stages as stages;
ghost use Rattle.exchange_machine.specs.Wants.{is_none};
ghost use Rattle.http_texts.specs.Heads.{LacksRequest};
ghost use Rattle.req_view.specs.declared.viewing.TheConstants.{HEAD_BYTES};
ghost use Rattle.req_view.specs.Heads.{HasNoHead, Waits};
ghost use Rattle.http_texts.specs.Replies.{refusal_text};

use crate::held::{forget, has_feed};
use crate::signs::Sign;
use crate::telling::Telling;
use crate::waiting::{Asked, Waiting};
use http_bodies::{Coding, Framing};
use http_texts::{Code, Fault, fault_of, request_framing};
use req_view::{HEAD_BYTES, View, Viewed, view};
use std::alloc::Global;

/// An exchange whose request head is being read. It holds the bytes that came, at most 16 KiB.
#[derive(Drop)]
pub struct Asking {
    pub(crate) held: Vec<u8>,
}

/// The result of reading a head further.
pub enum Turn {
    More(Asking),
    Whole(Waiting),
    /// The bytes can't become a head, their framing is unsound, or the bytes after the head are no
    /// body: 400. Or memory is short.
    Refused(Fault),
}

impl Asking {
    /// Makes the exchange of a new client.
    pub fn new(alloc: Global) -> Asking
        ensures { stages.IsAsking result nothing_yet }
    {
        Asking {
            held: Vec::new(alloc),
        }
    }

    /// Says whether no byte has come from the client yet.
    pub fn is_silent(&self) -> bool
        ensures { result ≡ is_none self.now.held.items }
    {
        self.held.is_empty()
    }

    /// Returns the number of bytes that it still takes.
    pub fn room(&self) -> usize {
        HEAD_BYTES.saturating_sub(self.held.len())
    }

    /// Takes bytes of the client as long as they fit into 16 KiB, and looks for a head where a line
    /// ends. `O(n)`; at a line's end in all bytes that are held.
    pub fn client_bytes(self, alloc: Global, input: &[u8]) -> (usize, Turn)
        ensures within { result.0 ≤ length input.now }
        ensures turn { (h : ExchangeHistory) → stages.IsAsking self h → stages.IsTurn result.1 (client_came h (take result.0 input.now)) }
        ensures more { stages.IsMore result.1 → result.0 ≡ length input.now }
        ensures all { (result.0 ≡ min (length input.now) (HEAD_BYTES - length self.held.items)) ⊎ (result.1 ≡ Turn.Refused Fault.NoMemory) }
        ensures checked { stages.IsChecked result.1 }
    {
        let (used, turn) = self.head_bytes(alloc, input);
        (used, looked_behind(turn))
    }

    /// The same, whatever stands after a head, even if it can't be its body.
    pub fn head_bytes(self, alloc: Global, input: &[u8]) -> (usize, Turn)
        ensures within { result.0 ≤ length input.now }
        ensures turn { (h : ExchangeHistory) → stages.IsAsking self h → stages.IsTurn result.1 (client_came h (take result.0 input.now)) }
        ensures says { stages.HeadSays result.1 (self.held.items ++ take result.0 input.now) }
        ensures more { stages.IsMore result.1 → result.0 ≡ length input.now }
        ensures all { (result.0 ≡ min (length input.now) (HEAD_BYTES - length self.held.items)) ⊎ (result.1 ≡ Turn.Refused Fault.NoMemory) }
    {
        let Asking { mut held } = self;
        let room = HEAD_BYTES.saturating_sub(held.len());
        let used = input.len().min(room);
        let came = &input[..used];
        match held.extend_from_slice(came) {
            Ok(()) => (used, look_further(alloc, held, has_feed(came))),
            Err(_) => (0, Turn::Refused(Fault::NoMemory)),
        }
    }

    /// Returns the number of bytes that it holds.
    pub fn count(&self) -> usize
        ensures { result ≡ length self.now.held.items }
    {
        self.held.len()
    }

    /// The client sends no more: returns the fault of its bytes. `O(n)`.
    pub fn fault(&self, alloc: Global) -> Fault
        ensures lacks { (h : ExchangeHistory) → stages.IsAsking self.now h → LacksRequest result h.client_in }
        ensures waits { result ≡ Fault.Read → (h : ExchangeHistory) → stages.IsAsking self.now h → Waits h.client_in }
    {
        match view(alloc, self.held.as_slice()) {
            Viewed::Refused(why) => fault_of(why),
            Viewed::More | Viewed::Whole(_, _) => Fault::Read,
        }
    }

    /// `timeout client` expired before a whole request came: 400.
    pub fn late(self) -> Telling
        ensures tells { (h : ExchangeHistory) → stages.IsAsking self h → Shows h.signs Sign.ClientOver → stages.IsTelling result h }
        ensures told { result.rest.now ≡ refusal_text Code.BadRequest }
    {
        Telling::of(Code::BadRequest)
    }
}

// Looks for a head where a line has ended since the last look; else there can be none.
fn look_further(alloc: Global, held: Vec<u8>, feed: bool) -> Turn
    ensures turn { (h : ExchangeHistory) → stages.HistoryIsFresh h → h.client_in ≡ held.items → (feed ≡ false → HasNoHead h.client_in × MayCome Waits h.client_in)
        → stages.IsTurn result h }
    ensures says { stages.HeadSays result held.items }
{
    if !feed && held.len() < HEAD_BYTES {
        return Turn::More(Asking { held });
    }
    find_head(alloc, held)
}

// Looks for a head in the bytes that came.
fn find_head(alloc: Global, held: Vec<u8>) -> Turn
    ensures turn { (h : ExchangeHistory) → stages.HistoryIsFresh h → h.client_in ≡ held.items → stages.IsTurn result h }
    ensures says { stages.HeadSays result held.items }
{
    match view(alloc, held.as_slice()) {
        Viewed::More => Turn::More(Asking { held }),
        Viewed::Refused(why) => Turn::Refused(fault_of(why)),
        Viewed::Whole(view, len) => match request_framing(&view) {
            None => Turn::Refused(Fault::Framing),
            Some(framing) => Turn::Whole(waiting_with(view, framing, held, len)),
        },
    }
}

// Looks for a head in the bytes that came, and at what stands after it.
pub(crate) fn look_on(alloc: Global, held: Vec<u8>) -> Turn
    ensures turn { (h : ExchangeHistory) → stages.HistoryIsFresh h → h.client_in ≡ held.items → stages.IsTurn result h }
    ensures checked { stages.IsChecked result }
{
    looked_behind(find_head(alloc, held))
}

fn looked_behind(turn: Turn) -> Turn
    ensures turn { (h : ExchangeHistory) → stages.HistoryIsFresh h → stages.IsTurn turn h → stages.IsTurn result h }
    ensures more { stages.IsMore result → stages.IsMore turn }
    ensures refused { (why : Fault) → turn ≡ Turn.Refused why → result ≡ turn }
    ensures checked { stages.IsChecked result }
{
    match turn {
        Turn::Whole(waiting) => look_behind(waiting),
        other => other,
    }
}

// Checks whether the bytes after a head are a body or may become one.
fn look_behind(waiting: Waiting) -> Turn
    ensures turn { (h : ExchangeHistory) → stages.HistoryIsFresh h → stages.IsWaiting waiting h → stages.IsTurn result h }
    ensures more { stages.IsMore result → ⊥ }
    ensures checked { stages.IsChecked result }
{
    let coding = Coding::new(waiting.asked.framing, true);
    if coding.breaks(waiting.asked.held.as_slice()) {
        Turn::Refused(Fault::Framing)
    } else {
        Turn::Whole(waiting)
    }
}

fn waiting_with(view: View, framing: Framing, mut held: Vec<u8>, len: usize) -> Waiting
    ensures view { result.asked.view ≡ view }
    ensures framing { result.asked.framing ≡ framing }
    ensures held { result.asked.held.items ≡ drop len held.items }
{
    forget(&mut held, len);
    Waiting {
        asked: Asked {
            view,
            framing,
            held,
        },
    }
}
