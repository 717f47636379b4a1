ghost use Rattle.std.specs.Prelude.{◌≡◌, [], ◌∷◌};
ghost use Rattle.relay_http.specs.States.{Serves};
ghost use Rattle.relay_workers.specs.Admissions.{IsRequestAt};
ghost use Rattle.base_verdict.specs.declared.Verdict.TheVariants.{Serve};

use dispatch_state::Ticketed;
use grant_board::{Pass, RelaySeat};
use locked_book::DeskName;
use req_view::View;
use std::marker::PhantomData;

/// A slot of a server, as it is lent to whoever connects to that server: the only pass of a seat of
/// the board that N names, and the request of the pass.
#[derive(Drop)]
pub struct Slot<'a, N: DeskName> {
    seat: &'a RelaySeat,
    pass: &'a Pass,
    view: &'a View,
    at: Ticketed,
    server: usize,
    of: PhantomData<N>,
    pub ghost named: { (seat.now.board ≡ N.board) × (seat.now.view.terms ≡ N.terms) },
    pub ghost held: { seat.now.view.passes ≡ pass.now ∷ [] },
    pub ghost its_own: { (pass.now.place ≡ at.place) × (pass.now.ticket ≡ at.ticket) },
    pub ghost serves: { pass.now.verdict ≡ Serve server },
    pub ghost arrived: { IsRequestAt N.terms N.setup view.now at },
}

impl<'a, N: DeskName> Slot<'a, N> {
    /// Makes the slot of this server that a seat's pass gives to a request.
    pub fn new(
        seat: &'a RelaySeat,
        pass: &'a Pass,
        view: &'a View,
        at: Ticketed,
        server: usize,
    ) -> Slot<'a, N>
        requires named { (seat.now.board ≡ N.board) × (seat.now.view.terms ≡ N.terms) }
        requires held { seat.now.view.passes ≡ pass.now ∷ [] }
        requires its_own { (pass.now.place ≡ at.place) × (pass.now.ticket ≡ at.ticket) }
        requires serves { pass.now.verdict ≡ Serve server }
        requires arrived { IsRequestAt N.terms N.setup view.now at }
        ensures pass { result.pass.now ≡ pass.now }
        ensures view { result.view.now ≡ view.now }
    {
        Slot {
            seat,
            pass,
            view,
            at,
            server,
            of: PhantomData,
        }
    }

    /// Returns its server.
    pub fn server(&self) -> usize
        ensures { self.now.pass.now.verdict ≡ Serve result }
    {
        self.server
    }

    /// Returns the ticket of its request.
    pub fn ticket(&self) -> u64
        ensures { result ≡ self.now.pass.now.ticket }
    {
        self.pass.ticket()
    }

    /// Returns the pass, and the head of its request.
    pub(crate) fn parts(&self) -> (&Pass, &View)
        ensures same { (result.0.now ≡ self.now.pass.now) × (result.1.now ≡ self.now.view.now) }
        ensures serves { Serves result.0.now.verdict }
    {
        (self.pass, self.view)
    }
}
