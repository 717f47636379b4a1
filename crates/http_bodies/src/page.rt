ghost use Rattle.std.specs.Prelude.{◌≡◌, ◌+◌, ◌^◌, ◌<◌, ◌++◌, [], length, OnOk, IfErr};
ghost use Rattle.http_bodies.specs.declared.outbox.TheConstants.{OUTBOX_BYTES};
ghost use Rattle.http_bodies.specs.declared.pipe.Pipe as pipes;
ghost use Rattle.http_bodies.specs.Texts.{Emits, Remains, Stops, WaitsBehind};

use crate::fault::Fault;
use crate::pipe::Pipe;
use base_streams::Sink;

/// The target of a text that is written piece by piece: a pipe, which writes to its sink where it
/// has no room, or memory, which never does.
pub trait Page {
    // The pipe that it is or behaves as.
    ghost pipe: { Self → pipes.Pipe };

    /// Appends the bytes after those that wait.
    fn put<K: Sink>(&mut self, sink: &mut K, bytes: &[u8]) -> Result<(), Fault>
        requires { (K.stream sink.old).calls + (pipe self.old).turns < 2 ^ 64 }
        ensures ok { OnOk result (Emits (K.stream sink.old) (K.stream sink.new) (pipe self.old).turns (pipe self.new).turns (pipe self.old).outbox (pipe self.new).outbox bytes.now) }
        ensures late { OnOk result (WaitsBehind (K.stream sink.old) (K.stream sink.new) (pipe self.old).outbox (pipe self.new).outbox bytes.now) }

        // What has no room isn't kept, unless the page has no turns, and so never writes.
        ensures beyond { OnOk result (OUTBOX_BYTES < length ((pipe self.old).outbox ++ bytes.now) → 0 < (pipe self.old).turns → (pipe self.new).outbox ≡ []) }
        ensures err { IfErr result (λ fault. (stop : Stops (K.stream sink.old) (K.stream sink.new) (pipe self.old).turns (pipe self.new).turns ((pipe self.old).outbox ++ bytes.now) fault)
            × Remains stop.front.front (pipe self.old).outbox (pipe self.new).outbox) }
        ensures inbox { (pipe self.new).inbox ≡ (pipe self.old).inbox };
}

impl Page for Pipe {
    ghost pipe = { λ p. p };

    fn put<K: Sink>(&mut self, sink: &mut K, bytes: &[u8]) -> Result<(), Fault> {
        self.emit(sink, bytes)
    }
}
