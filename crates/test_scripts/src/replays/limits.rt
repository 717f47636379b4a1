use super::{Replay, play};

static ROWS: [Replay; 2] = [
    Replay {
        name: "a lowered limit stops nobody and a raised one grants",
        script: "\
server a 2 0 1
0 arrive 0 0
0 arrive 0 0
1 arrive 0 0
2 arrive 0 0
3 limit a 1
4 done 1
5 done 2
6 limit a 0
",
        trace: "\
0 arrive 1 0 0
  direct 1 a
0 arrive 2 0 0
  direct 2 a
1 arrive 3 0 1
  join 3 *
2 arrive 4 0 2
  join 4 *
3 limit a 1
4 done 1
  free 1 a
  end 1
5 done 2
  free 2 a
  end 2
  grant 3 * a
6 limit a 0
  grant 4 * a
queue * class 0 granted 2 worst 4 due 1 after 0 to 16 critical 3
",
    },
    Replay {
        name: "the server that is named gets the limit",
        script: "\
server a 1 0 1
server b 1 0 1
0 limit b 2
1 arrive 0 0 b
2 arrive 0 0 b
1 limit c 2
",
        trace: "\
0 limit b 2
1 arrive 1 0 1 b
  direct 1 b
2 arrive 2 0 2 b
  direct 2 b
refused 6
",
    },
];

#[test]
fn a_limit_is_of_the_server_that_is_named_and_stops_nobody(rt: HostRuntime) {
    play(&rt, rt.alloc(), &ROWS);
}
