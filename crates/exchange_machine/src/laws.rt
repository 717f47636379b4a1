ghost use Rattle.std.specs.Prelude.{◌≡◌, ◌++◌, ℕ, List, [], Bool, true};
ghost use Rattle.base_lists.specs.Fronts.{IsFront};
ghost use Rattle.http_bodies.specs.Framings.{IsBody};
ghost use Rattle.http_bodies.specs.declared.framing.Framing as framings;
ghost use Rattle.http_bodies.specs.Readings.{start_of};
ghost use Rattle.http_bodies.specs.Runs.{IsSent};
ghost use Rattle.http_bodies.specs.Stops.{is_done};
ghost use Rattle.http_bodies.specs.declared.coding.Coding as codings;
ghost use Rattle.http_texts.specs.Messages.{PartOfForwarded, PartOfAnswered, IsForwarded, IsAnswered};
ghost use Rattle.http_texts.specs.declared.additions.Additions as additions;
ghost use Rattle.http_texts.specs.declared.persistence.Persistence as words;
ghost use Rattle.http_texts.specs.declared.fault.Fault as faults;
ghost use Rattle.req_view.specs.Request.{Request};
ghost use Rattle.exchange_machine.specs.Sides.{IsUp, IsDown};
ghost use Rattle.exchange_machine.specs.Ways.{Hears};
ghost use Rattle.exchange_machine.specs.declared.sides.Down as downs;
ghost use Rattle.http_bodies.specs.Runs.{IsLongest};
ghost use Rattle.exchange_machine.specs.Headline.{Sound};
ghost use Rattle.exchange_machine.specs.Histories.{ExchangeHistory};
ghost use Rattle.exchange_machine.specs.Settlings.{IsSettling};
ghost use Rattle.exchange_machine.specs.Stages.{IsUnread, IsAsking, IsWaiting, IsDialing, IsForwarding, IsLeaving, IsTelling, IsOver};
ghost use Rattle.exchange_machine.specs.declared.asking.Asking as asking;
ghost use Rattle.exchange_machine.specs.declared.waiting.Waiting as waiting;
ghost use Rattle.exchange_machine.specs.declared.dialing.Dialing as dialing;
ghost use Rattle.exchange_machine.specs.declared.forwarding.Forwarding as forwarding;
ghost use Rattle.exchange_machine.specs.declared.leaving.Leaving as leaving;
ghost use Rattle.exchange_machine.specs.declared.settling.Settling as settling;
ghost use Rattle.exchange_machine.specs.declared.telling.Telling as telling;

use crate::sides::Down;

/// The bytes that were sent in one direction are a front of the head's text and the text of the
/// body, whatever more of it comes; where the body is whole and nothing waits, they are all of it.
pub fn what_a_way_sends()
    ensures front { (framing : framings.Framing) (framed : Bool) (c : codings.Coding) (text waiting came went more sent : List ℕ)
        → Hears (start_of framing framed) c text waiting came went → IsSent framing framed (came ++ more) sent → IsFront went (text ++ sent) }
    ensures all { (framing : framings.Framing) (framed : Bool) (c : codings.Coding) (text came went : List ℕ)
        → Hears (start_of framing framed) c text [] came went → is_done c ≡ true → (body : List ℕ) × IsBody framing framed came body × (went ≡ text ++ body) }
{}

/// The text of a side is a front of what any message becomes that begins with these bytes, by the
/// definitions of whole messages.
pub fn what_sides_send()
    ensures up { (adds : additions.Additions) (r : Request) (c : codings.Coding) (held came given more text : List ℕ) → IsUp adds r c held came given
        → IsLongest (PartOfForwarded adds r) (came ++ more) text → IsFront given text }
    ensures whole_up { (adds : additions.Additions) (r : Request) (c : codings.Coding) (held came given : List ℕ) → IsUp adds r c held came given
        → is_done c ≡ true
        → (used : List ℕ) × (came ≡ used ++ held) × IsForwarded adds r used given }
    ensures down { (says : words.Persistence) (kept : Bool) (method : List ℕ) (framed : Bool) (phase : downs.Down) (c : codings.Coding)
        (held came given more text : List ℕ)
        → IsDown says kept method framed phase c held came given → IsLongest (PartOfAnswered says method framed) (came ++ more) text → IsFront given text }
    ensures whole_down { (says : words.Persistence) (kept : Bool) (method : List ℕ) (framed : Bool) (c : codings.Coding) (held came given : List ℕ)
        → IsDown says kept method framed Down.Body c held came given
        → is_done c ≡ true → (used : List ℕ) × (came ≡ used ++ held) × IsAnswered says method framed used given }
{}

/// The main theorem, at each stage: with the calls' clauses, it holds after any interleaving of them.
pub fn what_holds()
    ensures asking { (a : asking.Asking) (h : ExchangeHistory) → IsAsking a h → Sound h }
    ensures waiting { (w : waiting.Waiting) (h : ExchangeHistory) → IsWaiting w h → Sound h }
    ensures dialing { (d : dialing.Dialing) (h : ExchangeHistory) → IsDialing d h → Sound h }
    ensures forwarding { (p : forwarding.Forwarding) (h : ExchangeHistory) → IsForwarding p h → Sound h }
    ensures settling { (s : settling.Settling) (h : ExchangeHistory) → IsSettling s h → Sound h }
    ensures unread { (fault : faults.Fault) (h : ExchangeHistory) → IsUnread fault h → Sound h }
    ensures leaving { (l : leaving.Leaving) (h : ExchangeHistory) → IsLeaving l h → Sound h }
    ensures telling { (t : telling.Telling) (h : ExchangeHistory) → IsTelling t h → Sound h }
    ensures over { (h : ExchangeHistory) → IsOver h → Sound h }
{}
