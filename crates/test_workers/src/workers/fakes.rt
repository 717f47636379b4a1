// A gate whose clients and servers are texts.
use super::*;

/// What was seen of all peers.
#[derive(Drop)]
pub(crate) struct Seen {
    /// The number of bytes that a peer was sent as expected, and of others.
    pub(crate) right: AtomicU64,
    pub(crate) wrong: AtomicU64,
    /// The number of connections to servers that were asked for.
    pub(crate) connects: AtomicU64,
    /// The number of servers that sent their whole answers.
    pub(crate) answers: AtomicU64,
    /// The number of windows that ended.
    pub(crate) windows: AtomicU64,
    /// The number of looks at checks of servers.
    pub(crate) probes: AtomicU64,
    // The key to what calls of the desk change.
    wakes: WakeKey,
}

impl Seen {
    pub(crate) fn new(wakes: WakeKey) -> Seen {
        Seen {
            right: AtomicU64::new(0),
            wrong: AtomicU64::new(0),
            connects: AtomicU64::new(0),
            answers: AtomicU64::new(0),
            windows: AtomicU64::new(0),
            probes: AtomicU64::new(0),
            wakes,
        }
    }
}

/// The bytes that a gate's peers send, and those that they expect.
#[derive(Clone, Copy)]
pub(crate) struct Scene {
    pub(crate) clients: u32,
    pub(crate) request: &'static [u8],
    pub(crate) answer: &'static [u8],
    pub(crate) to_server: &'static [u8],
    pub(crate) to_client: &'static [u8],
    /// A client takes this number of bytes, and leaves.
    pub(crate) taken: usize,
    /// This number of connections fail at first.
    pub(crate) failing: u64,
    /// A client has left once it was asked this number of times.
    pub(crate) patience: u32,
    /// A server answers once this number of servers have answered, or once it has waited too long.
    pub(crate) answers_after: u64,
    /// The result of a server's check.
    pub(crate) up: bool,
}

/// One end of a connection.
#[derive(Drop)]
pub(crate) struct Peer<'a> {
    says: &'static [u8],
    expects: &'static [u8],
    takes: usize,
    answers_after: u64,
    serves: bool,
    seen: &'a Seen,
}

impl Read for Peer<'_> {
    fn read(&mut self, buf: &mut [u8]) -> io::Result<usize> {
        if self.serves && !waited(self.seen, self.answers_after) {
            return Err(io::Error::from(io::ErrorKind::TimedOut));
        }
        let count = self.says.len().min(buf.len());
        buf[..count].copy_from_slice(&self.says[..count]);
        self.says = &self.says[count..];
        if self.serves && count > 0 && self.says.is_empty() {
            self.seen.answers.fetch_add(1, Ordering::SeqCst);
        }
        Ok(count)
    }
}

fn waited(seen: &Seen, answers: u64) -> bool {
    for _ in 0..10_000_000 {
        if seen.answers.load(Ordering::SeqCst) >= answers {
            return true;
        }
        std::thread::yield_now();
    }
    false
}

impl Write for Peer<'_> {
    fn write(&mut self, buf: &[u8]) -> io::Result<usize> {
        let Some(first) = buf.first() else {
            return Ok(0);
        };
        if self.takes == 0 {
            return Err(io::Error::from(io::ErrorKind::BrokenPipe));
        }
        self.takes -= 1;
        if self.expects.first() == Some(first) {
            self.expects = &self.expects[1..];
            self.seen.right.fetch_add(1, Ordering::SeqCst);
        } else {
            self.seen.wrong.fetch_add(1, Ordering::SeqCst);
        }
        Ok(1)
    }

    fn flush(&mut self) -> io::Result<()> {
        Ok(())
    }
}

#[derive(Drop)]
pub(crate) struct Fake<'a> {
    scene: Scene,
    seen: &'a Seen,
    came: u32,
    asked: u32,
    now: u64,
}

/// The check of a server that is up, or isn't.
#[derive(Drop)]
pub(crate) struct Up {
    is_up: bool,
}

impl EndedCheck for Up {
    ghost passed = { λ up. up.is_up };

    fn has_passed(&self) -> bool {
        self.is_up
    }
}

impl<'a> Gate for Fake<'a> {
    type Client = Peer<'a>;

    type Server = Peer<'a>;

    type Check = Up;

    type Receipt = ();

    fn next(&mut self) -> Option<Peer<'a>> {
        if self.came == self.scene.clients {
            return None;
        }
        self.came = self.came.saturating_add(1);
        self.asked = 0;
        Some(Peer {
            says: self.scene.request,
            expects: self.scene.to_client,
            takes: self.scene.taken,
            answers_after: 0,
            serves: false,
            seen: self.seen,
        })
    }

    fn release(&mut self, client: Peer<'a>) {
        drop(client);
    }

    fn connect<N: DeskName>(&mut self, _slot: &Slot<'_, N>) -> Option<Peer<'a>> {
        let before = self.seen.connects.fetch_add(1, Ordering::SeqCst);
        if before < self.scene.failing {
            return None;
        }
        Some(Peer {
            says: self.scene.answer,
            expects: self.scene.to_server,
            takes: usize::MAX,
            answers_after: self.scene.answers_after,
            serves: true,
            seen: self.seen,
        })
    }

    fn disconnect(&mut self, server: Peer<'a>) {
        drop(server);
    }

    fn posted(&mut self, _seat: &RelaySeat) {}

    fn probe(&mut self, _server: usize) -> Option<Up> {
        self.seen.probes.fetch_add(1, Ordering::SeqCst);
        Some(Up {
            is_up: self.scene.up,
        })
    }

    fn gone(&mut self, _client: &mut Peer<'a>) -> bool {
        self.asked = self.asked.saturating_add(1);
        self.asked > self.scene.patience
    }

    fn moment(&mut self) -> Moment {
        self.now = self.now.saturating_add(1);
        Moment::new(self.now).unwrap_or(Moment::zero())
    }

    fn window<N: DeskName>(&mut self, window: EndedWindow, changed: Changed<N>) {
        let _ = changed.take(&self.seen.wakes);
        let EndedWindow {
            reports: _,
            servers: _,
        } = window;
        self.seen.windows.fetch_add(1, Ordering::SeqCst);
    }

    fn wake<N: DeskName>(&mut self, changed: Changed<N>) {
        let _ = changed.take(&self.seen.wakes);
    }
}

impl<'a> Fake<'a> {
    pub(crate) fn new(scene: Scene, seen: &'a Seen) -> Fake<'a> {
        Fake {
            scene,
            seen,
            came: 0,
            asked: 0,
            now: 0,
        }
    }
}

/// This number of pauses, in each of which another thread may run.
#[derive(Drop)]
pub(crate) struct Few {
    most: u32,
    left: u32,
}

impl Few {
    pub(crate) fn new(most: u32) -> Few {
        Few { most, left: 0 }
    }
}

impl Pause for Few {
    ghost most = { λ pause. pause.most };

    ghost left = { λ pause. pause.left };

    fn begin(&mut self) {
        self.left = self.most;
    }

    fn turn(&mut self) -> bool {
        if self.left == 0 {
            return false;
        }
        self.left -= 1;
        std::thread::yield_now();
        true
    }
}
