use super::{Replay, play};

static ROWS: [Replay; 3] = [
    Replay {
        name: "a pin to a fallen server is ignored",
        script: "\
server a 1 1 1
server b 1 0 1 2 1
0 arrive 0 0 a
1 arrive 0 0 a
2 arrive 0 0 a
3 check b down
4 arrive 0 0 b
",
        trace: "\
0 arrive 1 0 0 a
  direct 1 a
1 arrive 2 0 1 a
  join 2 a
2 arrive 3 0 2 a
  direct 3 b
3 check b down
  health b down
4 arrive 4 0 4 b
  join 4 *
",
    },
    Replay {
        name: "the queue of a fallen server moves",
        script: "\
redispatch
server a 1 0 1 2 3
server b 1 0 1
server c 1 0 1
0 arrive 0 0 a
1 arrive 0 0 a
2 arrive 0 0 a
3 arrive 0 -3 a
4 check a down
5 check a down
6 check a down
",
        trace: "\
0 arrive 1 0 0 a
  direct 1 a
1 arrive 2 0 1 a
  join 2 a
2 arrive 3 0 2 a
  join 3 a
3 arrive 4 0 0 a
  join 4 a
4 check a down
5 check a down
6 check a down
  health a down
  move 4 a
  move 2 a
  move 3 a
  grant 4 * b
  grant 2 * c
queue * class 0 granted 2 worst 6 due 0 after 0 to 16 critical 4
",
    },
    Replay {
        name: "without redispatch the queue of a fallen server stays",
        script: "\
server a 1 0 1 2 3
server b 1 0 1
server c 1 0 1
0 arrive 0 0 a
1 arrive 0 0 a
2 arrive 0 0 a
3 arrive 0 -3 a
4 check a down
5 check a down
6 check a down
",
        trace: "\
0 arrive 1 0 0 a
  direct 1 a
1 arrive 2 0 1 a
  join 2 a
2 arrive 3 0 2 a
  join 3 a
3 arrive 4 0 0 a
  join 4 a
4 check a down
5 check a down
6 check a down
  health a down
",
    },
];

#[test]
fn a_fallen_server_is_passed_over_and_its_queue_moves_with_redispatch(rt: HostRuntime) {
    play(&rt, rt.alloc(), &ROWS);
}
