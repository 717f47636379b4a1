use super::{Replay, play};

static ROWS: [Replay; 10] = [
    Replay {
        name: "a closed server serves on, and its queue and pins go to the others",
        script: "\
redispatch
server a 1 0 1
server b 1 0 1
0 arrive 0 0 a
1 arrive 0 0 a
2 limit a closed
3 arrive 0 0 a
4 done 1
5 done 2
6 limit a 1
7 arrive 0 0 a
",
        trace: "\
0 arrive 1 0 0 a
  direct 1 a
1 arrive 2 0 1 a
  join 2 a
2 limit a closed
  move 2 a
  grant 2 * b
3 arrive 3 0 3 a
  join 3 *
4 done 1
  free 1 a
  end 1
5 done 2
  free 2 b
  end 2
  grant 3 * b
6 limit a 1
7 arrive 4 0 7 a
  direct 4 a
queue * class 0 granted 2 worst 2 due 3 after 0 to 16 critical 2 3
",
    },
    Replay {
        name: "without redispatch the queue of a closed server waits until it is opened",
        script: "\
server a 1 0 1
0 arrive 0 0
1 arrive 0 0 a
2 limit a closed
3 done 1
4 arrive 0 0 a
5 limit a 1
",
        trace: "\
0 arrive 1 0 0
  direct 1 a
1 arrive 2 0 1 a
  join 2 a
2 limit a closed
3 done 1
  free 1 a
  end 1
4 arrive 3 0 4 a
  join 3 *
5 limit a 1
  grant 2 a a
queue a class 0 granted 1 worst 4 due 1 after 0 to 12 critical 2
",
    },
    Replay {
        name: "all are closed, and who comes is served by due date when one opens",
        script: "\
server a 1 0 1
server b 1 0 1
0 limit a closed
0 limit b closed
1 arrive 0 0
2 arrive 0 -5
3 arrive -1 99
4 limit c closed
4 limit b 2
5 limit a 1
",
        trace: "\
0 limit a closed
0 limit b closed
1 arrive 1 0 1
  join 1 *
2 arrive 2 0 -3
  join 2 *
3 arrive 3 -1 102
  join 3 *
refused 6
4 limit b 2
  grant 3 * b
  grant 2 * b
5 limit a 1
  grant 1 * a
queue * class -1 granted 1 worst -98 due 102 after 0 to 10 critical 3
queue * class 0 granted 2 worst 7 due -3 after 0 to 11 critical 2
",
    },
    Replay {
        name: "a retry at a closed server keeps its slot",
        script: "\
server a 1 0 1
0 arrive 0 0
1 limit a closed
2 fail 1
3 arrive 0 0
4 done 1
5 limit a 0
",
        trace: "\
0 arrive 1 0 0
  direct 1 a
1 limit a closed
2 fail 1
  retry 1 a 1
3 arrive 2 0 3
  join 2 *
4 done 1
  free 1 a
  end 1
5 limit a 0
  grant 2 * a
queue * class 0 granted 1 worst 2 due 3 after 0 to 12 critical 2
",
    },
    Replay {
        name: "a redispatched request goes to no closed server",
        script: "\
retries 1
redispatch
server a 1 0 1
server b 1 0 1
0 arrive 0 0
1 limit b closed
2 limit a closed
3 fail 1
4 limit b 1
",
        trace: "\
0 arrive 1 0 0
  direct 1 a
1 limit b closed
2 limit a closed
3 fail 1
  free 1 a
  join 1 *
4 limit b 1
  grant 1 * b
queue * class 0 granted 1 worst 4 due 0 after 0 to 9 critical 1
",
    },
    Replay {
        name: "a pin to a closed server is ignored",
        script: "\
server a 1 0 1
server b 1 0 1
0 limit a closed
1 arrive 0 0 a
2 arrive 0 0 a
3 done 1
",
        trace: "\
0 limit a closed
1 arrive 1 0 1 a
  direct 1 b
2 arrive 2 0 2 a
  join 2 *
3 done 1
  free 1 b
  end 1
  grant 2 * b
queue * class 0 granted 1 worst 1 due 2 after 0 to 9 critical 2
",
    },
    Replay {
        name: "a closed server of weight 0 takes no pinned request either",
        script: "\
server a 1 0 1
server b 1 0 0
0 limit b closed
1 arrive 0 0 b
2 limit b 1
3 arrive 0 0 b
",
        trace: "\
0 limit b closed
1 arrive 1 0 1 b
  direct 1 a
2 limit b 1
3 arrive 2 0 3 b
  direct 2 b
",
    },
    Replay {
        name: "a server is closed twice, and serves on both times",
        script: "\
server a 2 0 1
0 arrive 0 0
0 arrive 0 0
1 limit a closed
2 done 1
3 limit a closed
4 arrive 0 0
5 limit a 1
6 done 2
",
        trace: "\
0 arrive 1 0 0
  direct 1 a
0 arrive 2 0 0
  direct 2 a
1 limit a closed
2 done 1
  free 1 a
  end 1
3 limit a closed
4 arrive 3 0 4
  join 3 *
5 limit a 1
6 done 2
  free 2 a
  end 2
  grant 3 * a
queue * class 0 granted 1 worst 2 due 4 after 0 to 16 critical 3
",
    },
    Replay {
        name: "a closed server stays closed over a window's end",
        script: "\
server a 1 0 1
0 limit a closed
1 arrive 0 0
roll
2 arrive 0 -9
3 limit a 1
",
        trace: "\
0 limit a closed
1 arrive 1 0 1
  join 1 *
roll
2 arrive 2 0 -7
  join 2 *
3 limit a 1
  grant 2 * a
queue * class 0 granted 1 worst 10 due -7 after 0 to 4 critical 2
",
    },
    Replay {
        name: "who waits at a closed server may be told timeout or give up",
        script: "\
queue-timeout 5
server a 1 0 1
0 arrive 0 0 a
1 arrive 0 0 a
2 arrive 0 0 a
3 limit a closed
4 abort 3
6 tick
7 done 1
8 limit a 1
",
        trace: "\
0 arrive 1 0 0 a
  direct 1 a
1 arrive 2 0 1 a
  join 2 a
2 arrive 3 0 2 a
  join 3 a
3 limit a closed
4 abort 3
  left 3 aborted
6 tick
  left 2 timeout
7 done 1
  free 1 a
  end 1
8 limit a 1
",
    },
];

#[test]
fn a_closed_server_serves_on_and_takes_nobody(rt: HostRuntime) {
    play(&rt, rt.alloc(), &ROWS);
}
