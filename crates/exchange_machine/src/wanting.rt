//! The bytes that the exchange waits for at both sides.

ghost use Rattle.std.specs.Prelude.{◌≡◌};
ghost use Rattle.exchange_machine.specs.Wants as wants;

use crate::forwarding::Forwarding;
use crate::sides::Down;
use http_bodies::OUTBOX_BYTES;
use req_view::HEAD_BYTES;

/// There is room for more of a body where no more bytes than this wait to be sent.
const ROOMY: usize = 16_384;

impl Forwarding {
    /// Says whether more of the request is taken now.
    pub fn takes_request(&self) -> bool
        ensures { result ≡ wants.takes_request self.now }
    {
        !self.is_cut()
            && !self.is_asked()
            && !self.is_asked_badly()
            && is_none(self.up_held.as_slice())
            && is_roomy(self.to_server())
    }

    /// Says whether more of the answer is taken now.
    pub fn takes_answer(&self) -> bool
        ensures { result ≡ wants.takes_answer self.now }
    {
        !self.has_ended() && !self.is_dialing() && self.takes_more()
    }

    fn takes_more(&self) -> bool
        ensures { result ≡ wants.takes_more self.now.phase self.now.down_held.items self.now.down.out }
    {
        let held = self.down_held.as_slice();
        match self.phase {
            Down::Heads(_) => held.len() < HEAD_BYTES,
            Down::Body => is_none(held) && is_roomy(self.to_client()),
        }
    }

    /// Returns about how many more bytes of the request fit.
    pub fn request_room(&self) -> usize {
        OUTBOX_BYTES.saturating_sub(self.to_server().len())
    }

    /// Returns about how many more bytes of the answer fit.
    pub fn answer_room(&self) -> usize {
        match self.phase {
            Down::Heads(_) => HEAD_BYTES.saturating_sub(self.down_held.len()),
            Down::Body => OUTBOX_BYTES.saturating_sub(self.to_client().len()),
        }
    }

    /// Says whether bytes wait for a server that takes them.
    pub fn sends_request(&self) -> bool
        ensures { result ≡ wants.sends_request self.now }
    {
        !self.is_cut() && !self.is_dialing() && !is_none(self.to_server())
    }
}

fn is_none(bytes: &[u8]) -> bool
    ensures { result ≡ wants.is_none bytes.now }
{
    bytes.is_empty()
}

fn is_roomy(bytes: &[u8]) -> bool
    ensures { result ≡ wants.is_roomy bytes.now }
{
    bytes.len() <= ROOMY
}
