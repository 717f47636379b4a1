ghost use Rattle.std.specs.Prelude.{◌≡◌, ℕ, List, ◌+◌, ◌^◌, ◌<◌, [], IfOk, OnOk, IfErr, OnErr, IsSome, Option, ◌⊎◌};
ghost use Rattle.exchange_machine.specs.Requests.{MayCome};
ghost use Rattle.req_view.specs.Heads.{HasHead, HasNoHead, Waits};
ghost use Rattle.base_streams.specs.Streams.{Stream};
ghost use Rattle.httparse.specs.Grammar.{RequestHead, print_request};
ghost use Rattle.http_bodies.specs.Steps.{ends, Moves};
ghost use Rattle.http_texts.specs.Framings as framings;
ghost use Rattle.http_texts.specs.Heads.{IsRequest, LacksRequest};
ghost use Rattle.relay_http.specs.Askings.{HasAsked, AskingIsTold};
ghost use Rattle.relay_http.specs.Failures.{Conveys, Fails};
ghost use Rattle.req_view.specs.Request.{request_of};

use base_streams::Source;
use exchange_machine::{Asking, Turn};
use http_bodies::Pipe;
use http_texts::Fault;
use req_view::View;
use std::alloc::Global;

/// The machine's answer to the held bytes.
#[derive(Drop)]
pub(crate) enum HeadProgress {
    More(Asking),
    Whole(View),
    Refused(Fault),
}

/// Reads a request's head with a sound framing. `O(n)` for each read in which a line ends.
pub(crate) fn read_request<S: Source>(
    pipe: &mut Pipe,
    alloc: Global,
    source: &mut S,
) -> Result<View, Fault>
    requires { (S.stream source.old).calls + pipe.old.turns < 2 ^ 64 }
    ensures ok { IfOk result (λ view. (h : RequestHead) × IsRequest h × (view ≡ request_of h) × IsSome (framings.request_framing view)
        × ((w : Stream) → Moves (ends pipe.old (S.stream source.old) w) (ends pipe.new (S.stream source.new) w) (print_request h) [])) }
    ensures err { (w : Stream) → IfErr result (Fails (ends pipe.old (S.stream source.old) w) (ends pipe.new (S.stream source.new) w) [] [] LacksRequest HasNoHead) }
    ensures kept { (w : Option (List ℕ))
        → OnErr result (Conveys pipe.old.inbox pipe.new.inbox (S.stream source.old).bytes (S.stream source.new).bytes w w [] []) }
    ensures waiting { pipe.new.outbox ≡ pipe.old.outbox }

    // Nothing is read where a head stands in the held bytes.
    ensures unread { OnOk result ((h : RequestHead) (rest : List ℕ) → HasHead pipe.old.inbox h rest → S.stream source.new ≡ S.stream source.old) }

    // And only where a head may still come.
    ensures needed { (S.stream source.new ≡ S.stream source.old) ⊎ MayCome Waits pipe.old.inbox }
{
    let mut asking = Asking::new(alloc);
    'reading: loop {
        match ask(pipe, alloc, asking) {
            HeadProgress::Whole(view) => return Ok(view),
            HeadProgress::Refused(fault) => return Err(fault),
            HeadProgress::More(more) => asking = more,
        }
        let count = pipe.fill(source)?;
        if count == 0 {
            return Err(asking.fault(alloc));
        }
    }
}

// Gives the machine the bytes that came since the last time. The bytes of a whole head are used.
fn ask(pipe: &mut Pipe, alloc: Global, asking: Asking) -> HeadProgress
    requires { HasAsked asking pipe.old.inbox }
    ensures { AskingIsTold result pipe.old pipe.new }
{
    let before = asking.count();
    let (used, turn) = asking.head_bytes(alloc, &pipe.held()[before..]);
    match turn {
        Turn::More(more) => HeadProgress::More(more),
        Turn::Refused(fault) => HeadProgress::Refused(fault),
        Turn::Whole(waiting) => {
            let (view, behind) = waiting.parts();
            pipe.consume(before + used - behind.len());
            HeadProgress::Whole(view)
        }
    }
}
