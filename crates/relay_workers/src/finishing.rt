ghost use Rattle.std.specs.Prelude.{◌≡◌, ◌≤◌, ℕ, List, [], ◌∷◌, Ok, None, Some, IfOk, IfErr, OnOk, OnErr, IfSome, IfNone, ◌↔◌, Option, false};
ghost use Rattle.grant_board.specs.Views.{return_of};
ghost use Rattle.relay_http.specs.declared.exchange.Stage.TheVariants as stage;
ghost use Rattle.relay_http.specs.States.{Serves};
ghost use Rattle.relay_workers.specs.Carrying.{IsHandedOn, IsServed};
ghost use Rattle.relay_workers.specs.Endings.{IsCarried, IsSent};
ghost use Rattle.relay_workers.specs.Turning.{HasTurned};
ghost use Rattle.relay_workers.specs.Gates.{Notice, noted};
ghost use Rattle.relay_workers.specs.Gates.Notice.{Missing, Posted, Released};
ghost use Rattle.grant_board.specs.RelayCalls.{post_after};
ghost use Rattle.relay_workers.specs.Outcomes.{after_telling};
ghost use Rattle.shared_desk.specs.Seats.{IsSameSeat};
ghost use Rattle.relay_workers.specs.declared.outcome.Outcome.TheVariants.{Answered, Cut};
ghost use Rattle.base_verdict.specs.declared.Cause.{Cause};
ghost use Rattle.base_verdict.specs.declared.Ending.TheVariants as ending;
ghost use Rattle.base_verdict.specs.declared.Verdict.TheVariants.{Serve, Told};

use crate::admitting::{Admitted, answer_refusal};
use crate::gate::Gate;
use crate::outcome::Outcome;
use crate::proxy::{Proxy, Runner};
use crate::slot::Slot;
use crate::waiting::Granted;
use base_verdict::{Ending, Verdict};
use grant_board::{Pass, RelaySeat};
use locked_book::DeskName;
use relay_http::Exchange;
use std::alloc::Global;
use std::io::{Read, Write};
use std::sync::Wait;

/// From a pass to the answer: hands the request to the server of the pass and its answer to the
/// client, posts the pass, and makes a turn, which hands the slot on. A client whose request was
/// told why it has no slot gets 503, or nothing where it gave up.
///
/// `Err` where there is no connection to the server: the request waits again, and may be retried.
/// `Ok` is the end of the exchange.
pub fn finish<R: Wait, N: DeskName, G: Gate + Drop>(
    rt: &R,
    proxy: &Proxy<N>,
    seat: &mut RelaySeat,
    runner: &mut Runner<G>,
    granted: Granted<N, G::Client>,
) -> Result<Outcome, Admitted<N, G::Client>>
    requires named { (seat.old.board ≡ N.board) × (seat.old.view.terms ≡ N.terms) }
    requires holds { seat.old.view.passes ≡ granted.pass ∷ [] }
    requires its_own { (granted.pass.place ≡ granted.admitted.at.place) × (granted.pass.ticket ≡ granted.admitted.at.ticket) }
    requires asked { (runner.old.exchange.stage ≡ stage.Asked) × (runner.old.exchange.begun ≡ false) }
    ensures idle { seat.new.view.passes ≡ [] }
    ensures done { OnOk result (seat.new.view ≡ post_after seat.old.view granted.pass ending.Done) }
    ensures failed { OnErr result ((seat.new.view ≡ post_after seat.old.view granted.pass ending.Failed) × Serves granted.pass.verdict) }
    ensures told { (cause : Cause) → granted.pass.verdict ≡ Told cause → result ≡ Ok (after_telling cause) }
    ensures answered { IfOk result (λ outcome. (outcome ≡ Answered) ↔ (runner.new.exchange.stage ≡ stage.Answered)) }
    ensures carried { (server : ℕ) → granted.pass.verdict ≡ Serve server → IfOk result (λ outcome. IsCarried runner.new.exchange outcome) }
    ensures closing { (cause : Cause) → granted.pass.verdict ≡ Told cause → runner.new.exchange.closing ≡ None }
    // One that gave up is told nothing.
    ensures cut { (cause : Cause) → granted.pass.verdict ≡ Told cause → result ≡ Ok Cut → runner.new.exchange ≡ runner.old.exchange }
    ensures sent { IfOk result (λ outcome. IsSent runner.new.exchange outcome) }
    ensures relayed { IfOk result (λ outcome. (client_then : G.Client) × (served : Option (List (Notice G.Client G.Server))) × (turned : Option (List (Notice G.Client G.Server)))
        × IsServed G.Client.remaining G.Client.contents G.Server.remaining G.Server.contents granted.pass.verdict granted.pass runner.new.exchange outcome granted.admitted.view runner.old.exchange.pipe.inbox granted.admitted.client client_then (G.notes runner.old.gate) served
        × HasTurned N.terms N.setup (noted (Posted seat.new.view) served) turned × (G.notes runner.new.gate ≡ noted (Released client_then) turned)) }
    ensures again { IfErr result (λ it. (it.client ≡ granted.admitted.client) × (it.at ≡ granted.admitted.at) × (it.view ≡ granted.admitted.view) × (runner.new.exchange ≡ runner.old.exchange)
        × HasTurned N.terms N.setup (noted (Posted seat.new.view) (noted (Missing granted.pass) (G.notes runner.old.gate))) (G.notes runner.new.gate)) }
    ensures same { IsSameSeat seat.old seat.new }
    ensures turns { runner.new.exchange.refused ≡ None → runner.new.exchange.pipe.turns ≤ runner.old.exchange.pipe.turns }
    ensures most { runner.new.exchange.most ≡ runner.old.exchange.most }
{
    let Granted { admitted, pass } = granted;
    let mut admitted = admitted;
    let carried = carry(proxy.alloc, seat, &pass, runner, &mut admitted);
    let ending = match carried {
        Some(_) => Ending::Done,
        None => Ending::Failed,
    };
    seat.post(proxy.desk.board(), pass, ending);
    runner.gate.posted(seat);
    // A refused turn met a full log: what it didn't collect stays on the board.
    let _ = proxy.turn(rt, &mut runner.gate);
    match carried {
        Some(outcome) => {
            admitted.release(&mut runner.gate);
            Ok(outcome)
        }
        None => Err(admitted),
    }
}

// Does what a pass asks for. `None` where there is no connection to its server.
fn carry<N: DeskName, G: Gate + Drop>(
    alloc: Global,
    seat: &RelaySeat,
    pass: &Pass,
    runner: &mut Runner<G>,
    admitted: &mut Admitted<N, G::Client>,
) -> Option<Outcome>
    requires named { (seat.now.board ≡ N.board) × (seat.now.view.terms ≡ N.terms) }
    requires holds { seat.now.view.passes ≡ pass.now ∷ [] }
    requires its_own { (pass.now.place ≡ admitted.old.at.place) × (pass.now.ticket ≡ admitted.old.at.ticket) }
    requires asked { (runner.old.exchange.stage ≡ stage.Asked) × (runner.old.exchange.begun ≡ false) }
    ensures told { (cause : Cause) → pass.now.verdict ≡ Told cause → result ≡ Some (after_telling cause) }
    ensures answered { IfSome result (λ outcome. (outcome ≡ Answered) ↔ (runner.new.exchange.stage ≡ stage.Answered)) }
    ensures carried { (server : ℕ) → pass.now.verdict ≡ Serve server → IfSome result (λ outcome. IsCarried runner.new.exchange outcome) }
    ensures closing { (cause : Cause) → pass.now.verdict ≡ Told cause → runner.new.exchange.closing ≡ None }
    ensures cut { (cause : Cause) → pass.now.verdict ≡ Told cause → result ≡ Some Cut → runner.new.exchange ≡ runner.old.exchange }
    ensures sent { IfSome result (λ outcome. IsSent runner.new.exchange outcome) }
    ensures none { IfNone result (Serves pass.now.verdict × (runner.new.exchange ≡ runner.old.exchange) × (admitted.new.client ≡ admitted.old.client) × (G.notes runner.new.gate ≡ noted (Missing pass.now) (G.notes runner.old.gate))) }
    ensures relayed { IfSome result (λ outcome. IsServed G.Client.remaining G.Client.contents G.Server.remaining G.Server.contents pass.now.verdict pass.now runner.new.exchange outcome admitted.old.view runner.old.exchange.pipe.inbox admitted.old.client admitted.new.client (G.notes runner.old.gate) (G.notes runner.new.gate)) }
    ensures kept { (admitted.new.at ≡ admitted.old.at) × (admitted.new.view ≡ admitted.old.view) }
    ensures turns { runner.new.exchange.refused ≡ None → runner.new.exchange.pipe.turns ≤ runner.old.exchange.pipe.turns }
    ensures most { runner.new.exchange.most ≡ runner.old.exchange.most }
{
    match pass.verdict() {
        Verdict::Told(cause) => {
            let outcome = Outcome::after_telling(cause);
            Some(answer_refusal(&mut runner.exchange, &mut admitted.client, outcome))
        }
        Verdict::Serve(server) => {
            let slot = Slot::<N>::new(seat, pass, &admitted.view, admitted.at, server);
            let mut server = runner.gate.connect(&slot)?;
            let client = &mut admitted.client;
            let outcome = hand_on(alloc, &slot, &mut runner.exchange, client, &mut server);
            runner.gate.disconnect(server);
            Some(outcome)
        }
    }
}

// Sends the request of a slot to the server, and hands its answer back.
fn hand_on<N: DeskName, C: Read + Write, S: Read + Write>(
    alloc: Global,
    slot: &Slot<'_, N>,
    exchange: &mut Exchange,
    client: &mut C,
    server: &mut S,
) -> Outcome
    requires asked { (exchange.old.stage ≡ stage.Asked) × (exchange.old.begun ≡ false) }
    ensures carried { IsCarried exchange.new result }
    ensures handed { IsHandedOn C.remaining C.contents S.remaining S.contents exchange.new result slot.now.view.now exchange.old.pipe.inbox client.old client.new server.old server.new }
    ensures sent { IsSent exchange.new result }
    ensures answered { (result ≡ Answered) ↔ (exchange.new.stage ≡ stage.Answered) }
    ensures turns { exchange.new.refused ≡ None → exchange.new.pipe.turns ≤ exchange.old.pipe.turns }
    ensures most { exchange.new.most ≡ exchange.old.most }
{
    let (pass, view) = slot.parts();
    match exchange.go_on(view, client) {
        Ok(()) => {}
        Err(_) => return Outcome::Cut,
    }
    match exchange.forward(pass, view, client, server) {
        Ok(()) => {}
        Err(fault) => return answer_refusal(exchange, client, Outcome::after_forwarding(fault)),
    }
    match exchange.answer(alloc, pass, view, server, client) {
        Ok(()) => Outcome::Answered,
        Err(_) if exchange.begun() => Outcome::Cut,
        Err(fault) => answer_refusal(exchange, client, Outcome::after_answering(fault)),
    }
}
