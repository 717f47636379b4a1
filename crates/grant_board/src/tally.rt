// The number of a seat's passes, in all and of each server.
ghost use Rattle.std.specs.Prelude.{◌≡◌, ◌+◌, ◌<◌, ◌≤◌, ◌^◌, slice_index, replicate};
ghost use Rattle.grant_board.specs.BoardWords.{IsVerdict};
ghost use Rattle.grant_board.specs.Views.{serves_at};

use base_verdict::Verdict;

const SERVERS: usize = 64;

#[derive(Clone, Copy)]
pub struct Tally {
    pub all: u16,
    pub of_server: [u16; SERVERS],
}

impl Tally {
    pub fn none() -> Tally
        ensures { result ≡ record { all = 0; of_server = replicate 64 0 } }
    {
        Tally {
            all: 0,
            of_server: [0; SERVERS],
        }
    }

    pub fn add(&mut self, verdict: Verdict)
        requires room { self.old.all + 1 < 2 ^ 16 }
        requires server_room { (n : _) → n < 64 → slice_index self.old.of_server n ≤ self.old.all }
        requires verdict_fits { IsVerdict verdict }
        ensures all { self.new.all ≡ self.old.all + 1 }
        ensures of_server { (n : _) → n < 64 → slice_index self.new.of_server n ≡ slice_index self.old.of_server n + serves_at n verdict }
    {
        self.all += 1;
        if let Verdict::Serve(server) = verdict {
            self.of_server[server] += 1;
        }
    }

    pub fn remove(&mut self, verdict: Verdict)
        requires some { 0 < self.old.all }
        requires server_some { (n : _) → n < 64 → serves_at n verdict ≤ slice_index self.old.of_server n }
        requires verdict_fits { IsVerdict verdict }
        ensures all { self.new.all + 1 ≡ self.old.all }
        ensures of_server { (n : _) → n < 64 → slice_index self.new.of_server n + serves_at n verdict ≡ slice_index self.old.of_server n }
    {
        self.all -= 1;
        if let Verdict::Serve(server) = verdict {
            self.of_server[server] -= 1;
        }
    }

    pub fn merge(&mut self, other: &Tally)
        requires room { self.old.all + other.now.all < 2 ^ 16 }
        requires server_room { (n : _) → n < 64 → slice_index self.old.of_server n + slice_index other.now.of_server n < 2 ^ 16 }
        ensures all { self.new.all ≡ self.old.all + other.now.all }
        ensures of_server { (n : _) → n < 64 → slice_index self.new.of_server n ≡ slice_index self.old.of_server n + slice_index other.now.of_server n }
    {
        self.all += other.all;
        for server in 0..SERVERS {
            self.of_server[server] += other.of_server[server];
        }
    }
}
