ghost use Rattle.std.specs.Prelude.{◌≡◌, ◌+◌, ◌^◌, ◌<◌, [], OnOk, IfErr};
ghost use Rattle.http_texts.specs.Emissions.{Sends, Halts};
ghost use Rattle.http_texts.specs.Texts as texts;

use base_streams::Sink;
use http_bodies::{Fault, Page, Pipe};
use http_texts::put_interim;
use req_view::AnswerHead;

/// Writes all that waits.
pub(crate) fn send<K: Sink>(pipe: &mut Pipe, sink: &mut K) -> Result<(), Fault>
    requires { (K.stream sink.old).calls + pipe.old.turns < 2 ^ 64 }
    ensures ok { OnOk result (Sends pipe.old pipe.new (K.stream sink.old) (K.stream sink.new) []) }
    ensures empty { OnOk result (pipe.new.outbox ≡ []) }
    ensures err { IfErr result (Halts pipe.old pipe.new (K.stream sink.old) (K.stream sink.new) []) }
{
    pipe.flush(sink)?;
    Ok(())
}

/// Writes what waits and the text.
pub(crate) fn send_text<K: Sink>(pipe: &mut Pipe, sink: &mut K, text: &[u8]) -> Result<(), Fault>
    requires { (K.stream sink.old).calls + pipe.old.turns < 2 ^ 64 }
    ensures ok { OnOk result (Sends pipe.old pipe.new (K.stream sink.old) (K.stream sink.new) text.now) }
    ensures empty { OnOk result (pipe.new.outbox ≡ []) }
    ensures err { IfErr result (Halts pipe.old pipe.new (K.stream sink.old) (K.stream sink.new) text.now) }
{
    pipe.put(sink, text)?;
    send(pipe, sink)?;
    Ok(())
}

/// Writes an interim head at once, since the server may take its time for the next one.
pub(crate) fn forward_interim<K: Sink>(
    pipe: &mut Pipe,
    sink: &mut K,
    head: &AnswerHead,
    framed: bool,
) -> Result<(), Fault>
    requires { (K.stream sink.old).calls + pipe.old.turns < 2 ^ 64 }
    ensures ok { OnOk result (Sends pipe.old pipe.new (K.stream sink.old) (K.stream sink.new) (texts.interim_text framed head.now)) }
    ensures empty { OnOk result (pipe.new.outbox ≡ []) }
    ensures err { IfErr result (Halts pipe.old pipe.new (K.stream sink.old) (K.stream sink.new) (texts.interim_text framed head.now)) }
{
    put_interim(pipe, sink, head, framed)?;
    send(pipe, sink)?;
    Ok(())
}
