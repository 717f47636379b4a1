ghost use Rattle.std.specs.Prelude.{◌≡◌, ◌<◌, ℕ, List, [], length, IfOk, IfErr, OnOk, Ok, Err, Option};
ghost use Rattle.config_setup.specs.Setups.{SetupIsAsked};
ghost use Rattle.dispatch_reports.specs.Reporting.{IsNew};
ghost use Rattle.grant_board.specs.KeeperCalls.{new_keeper};
ghost use Rattle.locked_book.specs.Books.{terms_for};
ghost use Rattle.log_entries.specs.declared.refusal.Refusal.TheVariants.{LogFull};
ghost use Rattle.log_entries.specs.Histories.{first_window};
ghost use Rattle.proxy_config.specs.Sound.{IsSoundConfig};
ghost use Rattle.relay_http.specs.States.{IsFresh};
ghost use Rattle.relay_workers.specs.Boards.{IsBoardOf};
ghost use Rattle.relay_workers.specs.Gates.{noted};
ghost use Rattle.relay_workers.specs.Gates.Notice.{Ended, Told};
ghost use Rattle.shared_desk.specs.Changes.{Change};
ghost use Rattle.std.specs.Bool.{OnTrue, OnFalse};
ghost use Rattle.std.specs.declared.alloc.AllocError.{AllocError};
ghost use Rattle.relay_workers.specs.Turning.{IsAnswered, WasTold, with_room};
ghost use Rattle.shared_desk.specs.Answers.{AnswersAbort, AnswersCheck, AnswersCollect, AnswersLimit, AnswersRoll, AnswersTurn, MakesRoom};
ghost use Rattle.dispatch_reports.specs.declared.reporting.EndedWindow.{EndedWindow};

use crate::gate::{Gate, Pause};
use crate::stopping::TURNS;
use crate::telling::Tells;
use dispatch_core::Core;
use grant_board::{Board, KeeperSeat, Return};
use late_cert::Running;
use locked_book::DeskName;
use log_entries::{Intake, Refusal};
use proxy_config::Config;
use relay_http::Exchange;
use shared_desk::{Changed, Desk, DeskKey, DeskKeys, DeskQueue, LogKey, OpenDesk, WakeKey};
use std::alloc::{AllocError, Global};
use std::marker::PhantomData;
use std::sync::Wait;
use std::thread::Threads;

/// What all threads of a proxy share: its dispatcher, its configuration, and the allocator. The
/// board is one of the configuration's, and the setup that N names is one that the configuration
/// asks for, which `new` ensures.
#[derive(Drop)]
pub struct Proxy<N: DeskName> {
    pub alloc: Global,
    pub desk: Desk<N>,
    key: DeskKey<N>,
    pub config: Config,
    of: PhantomData<N>,
    pub ghost its_board: { IsBoardOf config N.terms },
    pub ghost its_setup: { SetupIsAsked config N.setup },
    pub ghost sound: { ∥ IsSoundConfig config ∥₁ },
}

/// The keys that aren't a proxy's own: its gates have the one for offers, and the thread that reads
/// its log has the other.
#[derive(Drop)]
pub struct ProxyKeys<N: DeskName> {
    pub log: LogKey<N>,
    pub wake: WakeKey,
}

/// The means to hand messages on: a gate, and one exchange for all its clients, one after the other.
#[derive(Drop)]
pub struct Runner<G: Gate + Drop> {
    pub gate: G,
    pub exchange: Exchange,
}

/// The means of a worker: a runner, and the pauses of its waits.
#[derive(Drop)]
pub struct Worker<G: Gate + Drop, P: Pause + Drop> {
    pub runner: Runner<G>,
    pub pause: P,
}

impl<G: Gate + Drop, P: Pause + Drop> Worker<G, P> {
    /// Makes a worker's means. It takes 84 KiB for its exchange, once. Where there is no memory for
    /// that, it gives the gate and the pauses back.
    pub fn new(alloc: Global, gate: G, pause: P) -> Result<Worker<G, P>, (G, P)>
        ensures parts { IfOk result (λ it. (it.runner.gate ≡ gate) × (it.pause ≡ pause)) }
        ensures exchange { IfOk result (λ it. IsFresh 1000000000 it.runner.exchange) }
        ensures back { IfErr result (λ back. (back.0 ≡ gate) × (back.1 ≡ pause)) }
    {
        match Exchange::new(alloc, TURNS) {
            Ok(exchange) => Ok(Worker {
                runner: Runner { gate, exchange },
                pause,
            }),
            Err(_) => Err((gate, pause)),
        }
    }
}

impl<N: DeskName> Proxy<N> {
    /// Makes a proxy of an accepted configuration, over a fresh dispatcher with the configuration's
    /// setup and an empty running worst, and a board that was opened for it. Returns the keys that
    /// aren't its own, too.
    pub fn new<R: Threads>(
        rt: &R,
        alloc: Global,
        config: Config,
        fresh: (Core<DeskQueue>, Running),
        opened: (Board, KeeperSeat),
    ) -> (Proxy<N>, ProxyKeys<N>)
        requires sound { IsSoundConfig config }
        requires asked { SetupIsAsked config fresh.0.setup }
        requires first { fresh.0 ≡ first_window fresh.0.setup [] }
        requires running { IsNew fresh.1 (length fresh.0.setup.servers) }
        requires board { (opened.0 ≡ N.board) × (opened.1.board ≡ N.board) }
        requires terms { N.terms ≡ terms_for fresh.0.setup }
        requires setup { N.setup ≡ fresh.0.setup }
        requires seat { opened.1.view ≡ new_keeper N.terms }
        ensures config { result.0.config ≡ config }
    {
        let (core, running) = fresh;
        let (board, seat) = opened;
        let (desk, keys) = Desk::new(rt, core, board, seat, running);
        let DeskKeys {
            desk: key,
            log,
            wake,
        } = keys;
        let proxy = Proxy {
            alloc,
            desk,
            key,
            config,
            of: PhantomData,
        };
        (proxy, ProxyKeys { log, wake })
    }

    // Opens the desk for calls that change what its lock holds.
    pub(crate) fn open(&self) -> OpenDesk<'_, N> {
        self.desk.open(&self.key)
    }

    /// Makes a turn of the desk, which looks at each place that is out. Refused as the desk's `turn`
    /// is; where the log is full only if there is no memory for the reports of its window, or the
    /// next window is full as well.
    pub fn turn<R: Wait, G: Gate>(&self, rt: &R, gate: &mut G) -> Result<(), Refusal>
        ensures { IsAnswered N.terms N.setup (AnswersTurn N.terms N.setup) result (G.notes gate.old) (G.notes gate.new) }
    {
        let moment = gate.moment();
        self.retry_in_new_window(
            rt,
            gate,
            || -> (Result<(), Refusal>, Changed<N>)
                ensures { AnswersTurn N.terms N.setup moment result.0 result.1 }
            { self.open().turn(rt, moment) },
        )
    }

    /// Collects what was posted at one place, without a look at any other. Refused where the log is
    /// full, as `turn` is: the return then stays on the board for a turn.
    pub fn collect<R: Wait, G: Gate>(
        &self,
        rt: &R,
        gate: &mut G,
        place: usize,
    ) -> Result<Option<Return>, Refusal>
        requires in_range { place < N.terms.places }
        ensures { IsAnswered N.terms N.setup (AnswersCollect N.terms N.setup place) result (G.notes gate.old) (G.notes gate.new) }
    {
        let moment = gate.moment();
        self.retry_in_new_window(
            rt,
            gate,
            || -> (Result<Option<Return>, Refusal>, Changed<N>)
                requires { place < N.terms.places }
                ensures { AnswersCollect N.terms N.setup place moment result.0 result.1 }
            { self.open().collect_at(rt, moment, place) },
        )
    }

    // Reports the result of a server's check. Refused as the dispatcher's `check` is.
    pub(crate) fn note_check<R: Wait, G: Gate>(
        &self,
        rt: &R,
        gate: &mut G,
        server: usize,
        ok: bool,
    ) -> Result<(), Refusal>
        ensures { IsAnswered N.terms N.setup (AnswersCheck N.terms N.setup server ok) result (G.notes gate.old) (G.notes gate.new) }
    {
        let moment = gate.moment();
        self.retry_in_new_window(
            rt,
            gate,
            || -> (Result<(), Refusal>, Changed<N>)
                ensures { AnswersCheck N.terms N.setup server ok moment result.0 result.1 }
            { self.open().check(rt, moment, server, ok) },
        )
    }

    /// Gives up a request that waits. Refused as the dispatcher's `abort` is: a request that doesn't
    /// wait has its verdict.
    pub fn give_up<R: Wait, G: Gate>(
        &self,
        rt: &R,
        gate: &mut G,
        ticket: u64,
    ) -> Result<(), Refusal>
        ensures { IsAnswered N.terms N.setup (AnswersAbort N.terms N.setup ticket) result (G.notes gate.old) (G.notes gate.new) }
    {
        let moment = gate.moment();
        self.retry_in_new_window(
            rt,
            gate,
            || -> (Result<(), Refusal>, Changed<N>)
                ensures { AnswersAbort N.terms N.setup ticket moment result.0 result.1 }
            { self.open().abort(rt, moment, ticket) },
        )
    }

    /// Sets how many requests a server takes. Refused as the dispatcher's `limit` is.
    pub fn limit<R: Wait, G: Gate>(
        &self,
        rt: &R,
        gate: &mut G,
        server: usize,
        intake: Intake,
    ) -> Result<(), Refusal>
        ensures { IsAnswered N.terms N.setup (AnswersLimit N.terms N.setup server intake) result (G.notes gate.old) (G.notes gate.new) }
    {
        let moment = gate.moment();
        self.retry_in_new_window(
            rt,
            gate,
            || -> (Result<(), Refusal>, Changed<N>)
                ensures { AnswersLimit N.terms N.setup server intake moment result.0 result.1 }
            { self.open().limit(rt, moment, server, intake) },
        )
    }

    /// Ends the present window, which the gate takes. Where there is no memory for that, the window goes on.
    pub fn end_window<R: Wait, G: Gate>(&self, rt: &R, gate: &mut G) -> Result<(), AllocError>
        ensures ok { OnOk result ((window : EndedWindow) × (change : Change) × AnswersRoll N.terms N.setup (Ok window) change × (G.notes gate.new ≡ noted (Ended window change) (G.notes gate.old))) }
        ensures err { IfErr result (λ fault. (change : Change) × AnswersRoll N.terms N.setup (Err fault) change × (G.notes gate.new ≡ noted (Told change) (G.notes gate.old))) }
    {
        let (ended, changed) = self.open().roll(rt, self.alloc);
        match ended {
            Ok(window) => {
                let _ = gate.window(window, changed);
                Ok(())
            }
            Err(fault) => {
                gate.wake(changed);
                Err(fault)
            }
        }
    }

    // Makes a call of the desk, and tells the gate what it changed. Where the log is full the next
    // window begins, the gate takes the one that ended, and the call is made once more; where there
    // is no memory for that, it stays refused. An answer that isn't a refusal can't be dropped here,
    // since `T` has no `Drop`.
    pub(crate) fn retry_in_new_window<
        R: Wait,
        G: Gate,
        T,
        C: Tells,
        F: Fn() -> (Result<T, Refusal>, C),
    >(&self, rt: &R, gate: &mut G, call: F) -> Result<T, Refusal>
        requires { F.IsAlwaysCallable call }
        ensures { WasTold C.change N.terms N.setup (λ answer told. F.post call (answer, told)) result (G.notes gate.old) (G.notes gate.new) }
    {
        let (answer, changed) = call();
        changed.tell(gate);
        match answer {
            Err(Refusal::LogFull) => {}
            answer => return answer,
        }
        if !self.find_room(rt, gate) {
            return Err(Refusal::LogFull);
        }
        let (answer, changed) = call();
        changed.tell(gate);
        answer
    }

    // Begins the next window where the log has no room for an event; the gate takes the one that
    // ended. Says whether there is room then.
    fn find_room<R: Wait, G: Gate>(&self, rt: &R, gate: &mut G) -> bool
        ensures there { OnTrue result ((found : Option EndedWindow) × (room : Change) × MakesRoom N.terms N.setup (Ok found) room × (G.notes gate.new ≡ with_room found room (G.notes gate.old))) }
        ensures none { OnFalse result ((fault : AllocError) × (room : Change) × MakesRoom N.terms N.setup (Err fault) room × (G.notes gate.new ≡ noted (Told room) (G.notes gate.old))) }
    {
        let (made, room) = self.open().make_room(rt, self.alloc);
        match made {
            Ok(Some(window)) => {
                let _ = gate.window(window, room);
                true
            }
            Ok(None) => {
                gate.wake(room);
                true
            }
            Err(_) => {
                gate.wake(room);
                false
            }
        }
    }
}
