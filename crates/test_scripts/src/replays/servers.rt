use super::{Replay, play};

static ROWS: [Replay; 9] = [
    Replay {
        name: "ties go round and weights count",
        script: "\
server a 0 0 2
server b 0 0 1
0 arrive 0 0
0 arrive 0 0
0 arrive 0 0
0 arrive 0 0
0 arrive 0 0
0 arrive 0 0
0 arrive 0 0
",
        trace: "\
0 arrive 1 0 0
  direct 1 a
0 arrive 2 0 0
  direct 2 b
0 arrive 3 0 0
  direct 3 a
0 arrive 4 0 0
  direct 4 b
0 arrive 5 0 0
  direct 5 a
0 arrive 6 0 0
  direct 6 a
0 arrive 7 0 0
  direct 7 b
",
    },
    Replay {
        name: "queued requests are load",
        script: "\
server a 1 5 2
server b 5 0 1
0 arrive 0 0
0 arrive 0 0
0 arrive 0 0
0 arrive 0 0
",
        trace: "\
0 arrive 1 0 0
  direct 1 a
0 arrive 2 0 0
  direct 2 b
0 arrive 3 0 0
  join 3 a
0 arrive 4 0 0
  direct 4 b
",
    },
    Replay {
        name: "a pin is ignored where the queue is full",
        script: "\
server a 1 1 1
server b 1 0 1
0 arrive 0 0 a
1 arrive 0 0 a
2 arrive 0 0 a
",
        trace: "\
0 arrive 1 0 0 a
  direct 1 a
1 arrive 2 0 1 a
  join 2 a
2 arrive 3 0 2 a
  direct 3 b
",
    },
    Replay {
        name: "a slot goes to the smaller head",
        script: "\
server a 1 1 1
0 arrive 0 0
5 arrive 0 0
5 arrive 0 0
6 done 1
7 done 2
",
        trace: "\
0 arrive 1 0 0
  direct 1 a
5 arrive 2 0 5
  join 2 a
5 arrive 3 0 5
  join 3 *
6 done 1
  free 1 a
  end 1
  grant 2 a a
7 done 2
  free 2 a
  end 2
  grant 3 * a
queue * class 0 granted 1 worst 2 due 5 after 0 to 14 critical 3
queue a class 0 granted 1 worst 1 due 5 after 0 to 10 critical 2
",
    },
    Replay {
        name: "weight 0 takes pinned requests alone",
        script: "\
server a 1 0 0
server b 1 0 1
0 arrive 0 0 a
0 arrive 0 0
1 arrive 0 0
1 arrive 0 5 a
2 done 1
3 done 4
",
        trace: "\
0 arrive 1 0 0 a
  direct 1 a
0 arrive 2 0 0
  direct 2 b
1 arrive 3 0 1
  join 3 *
1 arrive 4 0 6 a
  join 4 a
2 done 1
  free 1 a
  end 1
  grant 4 a a
3 done 4
  free 4 a
  end 4
queue a class 0 granted 1 worst -4 due 6 after 0 to 12 critical 4
",
    },
    Replay {
        name: "places and the log have their ends",
        script: "\
places 1
log 16
0 arrive 0 0
1 arrive 0 0
2 done 1
3 arrive 0 0
4 done 2
",
        trace: "\
0 arrive 1 0 0
  direct 1 s1
refused 2
2 done 1
  free 1 s1
  end 1
3 arrive 2 0 3
  direct 2 s1
refused 3
",
    },
    Replay {
        name: "a pin to no server is refused",
        script: "\
places 1
server a 1 0 1
0 arrive 0 0 b
0 arrive 0 0 a
0 arrive 0 0 b
0 arrive 0 0 a
",
        trace: "\
refused 6
0 arrive 1 0 0 a
  direct 1 a
refused 6
refused 2
",
    },
    // Without a usable server a request is told so at once, and keeps its place until the caller
    // has reported that.
    Replay {
        name: "a request without a server is told so",
        script: "\
places 1
server a 1 0 0
0 arrive 0 0
1 arrive 0 0
2 done 1
",
        trace: "\
0 arrive 1 0 0
  left 1 noserver
refused 2
2 done 1
  end 1
",
    },
    // The servers come in the order of their lines, the classes of a queue by rising number.
    Replay {
        name: "each queue and class is reported",
        script: "\
server b 1 5 1
server a 1 5 1
0 arrive 0 0 b
0 arrive 0 0 a
1 arrive 3 0 a
1 arrive -2 0 a
1 arrive 3 0 b
6 done 1
8 done 2
9 done 4
",
        trace: "\
0 arrive 1 0 0 b
  direct 1 b
0 arrive 2 0 0 a
  direct 2 a
1 arrive 3 3 1 a
  join 3 a
1 arrive 4 -2 1 a
  join 4 a
1 arrive 5 3 1 b
  join 5 b
6 done 1
  free 1 b
  end 1
  grant 5 b b
8 done 2
  free 2 a
  end 2
  grant 4 a a
9 done 4
  free 4 a
  end 4
  grant 3 a a
queue b class 3 granted 1 worst 5 due 1 after 0 to 14 critical 5
queue a class -2 granted 1 worst 7 due 1 after 0 to 18 critical 4
queue a class 3 granted 1 worst 8 due 1 after 0 to 22 critical 3
",
    },
];

#[test]
fn each_request_goes_where_the_rules_send_it(rt: HostRuntime) {
    play(&rt, rt.alloc(), &ROWS);
}
