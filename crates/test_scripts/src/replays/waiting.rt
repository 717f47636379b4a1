use super::{Replay, play};

static ROWS: [Replay; 2] = [
    Replay {
        name: "only what waits is aborted",
        script: "\
0 arrive 0 0
0 arrive 0 0
1 abort 2
2 abort 2
2 done 2
3 abort 1
4 fail 2
5 check s1 up
5 check zz up
",
        trace: "\
0 arrive 1 0 0
  direct 1 s1
0 arrive 2 0 0
  join 2 *
1 abort 2
  left 2 aborted
refused 5
2 done 2
  end 2
refused 5
refused 4
refused 5
refused 6
",
    },
    Replay {
        name: "a stay ends with the first tick at its limit",
        script: "\
queue-timeout 10
0 arrive 0 0
5 arrive 0 0
14 tick
15 tick
16 done 2
17 done 2
",
        trace: "\
0 arrive 1 0 0
  direct 1 s1
5 arrive 2 0 5
  join 2 *
14 tick
15 tick
  left 2 timeout
16 done 2
  end 2
refused 4
",
    },
];

#[test]
fn stays_end_by_abort_or_timeout(rt: HostRuntime) {
    play(&rt, rt.alloc(), &ROWS);
}
