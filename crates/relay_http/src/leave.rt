ghost use Rattle.std.specs.Prelude.{◌≡◌, ◌+◌, ◌^◌, ◌<◌, [], OnOk, IfErr};
ghost use Rattle.base_streams.specs.Streams.{Stream};
ghost use Rattle.http_bodies.specs.Steps.{ends, Moves, LacksNothing};
ghost use Rattle.relay_http.specs.Failures.{Fails, NoCause};
ghost use Rattle.http_texts.specs.Replies as replies;

use crate::sending::send_text;
use base_streams::Sink;
use http_bodies::Pipe;
use http_texts::{Fault, given_leave};
use req_view::View;

/// Sends the `100` to a client that waits for it before it sends its body.
pub(crate) fn give_leave<K: Sink>(pipe: &mut Pipe, view: &View, sink: &mut K) -> Result<(), Fault>
    requires empty { pipe.old.outbox ≡ [] }
    requires countable { (K.stream sink.old).calls + pipe.old.turns < 2 ^ 64 }
    ensures ok { (s : Stream)
        → OnOk result (Moves (ends pipe.old s (K.stream sink.old)) (ends pipe.new s (K.stream sink.new)) [] (replies.leave_text view.now)) }
    ensures empty { OnOk result (pipe.new.outbox ≡ []) }
    ensures err { (s : Stream)
        → IfErr result (Fails (ends pipe.old s (K.stream sink.old)) (ends pipe.new s (K.stream sink.new)) [] (replies.leave_text view.now) NoCause
        LacksNothing) }
    ensures held { pipe.new.inbox ≡ pipe.old.inbox }
{
    send_text(pipe, sink, given_leave(view))?;
    Ok(())
}
