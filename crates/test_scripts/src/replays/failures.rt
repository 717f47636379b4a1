use super::{Replay, play};

static ROWS: [Replay; 4] = [
    Replay {
        name: "the last retry goes to another server",
        script: "\
redispatch
server a 1 0 1
server b 1 0 1
0 arrive 0 0
1 fail 1
2 fail 1
3 fail 1
4 fail 1
5 done 1
",
        trace: "\
0 arrive 1 0 0
  direct 1 a
1 fail 1
  retry 1 a 1
2 fail 1
  retry 1 a 2
3 fail 1
  free 1 a
  direct 1 b
4 fail 1
  free 1 b
  left 1 retries
5 done 1
  end 1
",
    },
    Replay {
        name: "without a retry the first failure is told",
        script: "\
redispatch
retries 0
server a 1 0 1
server b 1 0 1
0 arrive 0 0
1 fail 1
",
        trace: "\
0 arrive 1 0 0
  direct 1 a
1 fail 1
  free 1 a
  left 1 retries
",
    },
    Replay {
        name: "a redispatched request waits and keeps its due date",
        script: "\
retries 1
redispatch
0 arrive 0 0
0 arrive 0 0
1 fail 1
2 done 2
3 fail 1
",
        trace: "\
0 arrive 1 0 0
  direct 1 s1
0 arrive 2 0 0
  join 2 *
1 fail 1
  free 1 s1
  grant 2 * s1
  join 1 *
2 done 2
  free 2 s1
  end 2
  grant 1 * s1
3 fail 1
  free 1 s1
  left 1 retries
queue * class 0 granted 2 worst 2 due 0 after 0 to 12 critical 2 1
",
    },
    Replay {
        name: "the server that failed is taken where no other is left",
        script: "\
retries 1
redispatch
0 arrive 0 0
1 fail 1
",
        trace: "\
0 arrive 1 0 0
  direct 1 s1
1 fail 1
  free 1 s1
  direct 1 s1
",
    },
];

#[test]
fn failed_connections_are_retried_or_told(rt: HostRuntime) {
    play(&rt, rt.alloc(), &ROWS);
}
