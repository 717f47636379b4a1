use super::{Replay, play};

static ROWS: [Replay; 8] = [
    Replay {
        name: "the empty script writes nothing",
        script: "",
        trace: "",
    },
    Replay {
        name: "nor do comments and blanks",
        script: "# nothing\n \t\r\n",
        trace: "",
    },
    Replay {
        name: "overtaking by offset",
        script: "0 arrive 0 0\n1 arrive 0 0\n2 arrive 0 -5\n10 done 1\n20 done 3\n",
        trace: "\
0 arrive 1 0 0
  direct 1 s1
1 arrive 2 0 1
  join 2 *
2 arrive 3 0 -3
  join 3 *
10 done 1
  free 1 s1
  end 1
  grant 3 * s1
20 done 3
  free 3 s1
  end 3
  grant 2 * s1
queue * class 0 granted 2 worst 19 due 1 after 0 to 14 critical 3 2
",
    },
    Replay {
        name: "an early grant is no fault",
        script: "0 arrive 0 0\n1 arrive 0 99\n10 done 1\n15 arrive 0 -10\n20 done 2\n",
        trace: "\
0 arrive 1 0 0
  direct 1 s1
1 arrive 2 0 100
  join 2 *
10 done 1
  free 1 s1
  end 1
  grant 2 * s1
15 arrive 3 0 5
  join 3 *
20 done 2
  free 2 s1
  end 2
  grant 3 * s1
queue * class 0 granted 2 worst 15 due 5 after 8 to 14 critical 3
",
    },
    Replay {
        name: "ties go by ticket",
        script: "0 arrive 0 0\n1 arrive 0 4\n5 arrive 0 0\n6 done 1\n9 done 2\n",
        trace: "\
0 arrive 1 0 0
  direct 1 s1
1 arrive 2 0 5
  join 2 *
5 arrive 3 0 5
  join 3 *
6 done 1
  free 1 s1
  end 1
  grant 2 * s1
9 done 2
  free 2 s1
  end 2
  grant 3 * s1
queue * class 0 granted 2 worst 4 due 5 after 0 to 14 critical 2 3
",
    },
    Replay {
        name: "offsets and classes end at their limits",
        script: "7 arrive 5000 -600000\n3 arrive 2047 -524287\n",
        trace: "\
7 arrive 1 2047 -524280
  direct 1 s1
7 arrive 2 2047 -524280
  join 2 *
",
    },
    Replay {
        name: "classes go first",
        script: "0 arrive 0 0\n1 arrive 0 -1\n2 arrive -1 9\n3 done 1\n4 done 3\n",
        trace: "\
0 arrive 1 0 0
  direct 1 s1
1 arrive 2 0 0
  join 2 *
2 arrive 3 -1 11
  join 3 *
3 done 1
  free 1 s1
  end 1
  grant 3 * s1
4 done 3
  free 3 s1
  end 3
  grant 2 * s1
queue * class -1 granted 1 worst -8 due 11 after 0 to 10 critical 3
queue * class 0 granted 1 worst 4 due 0 after 0 to 14 critical 2
",
    },
    Replay {
        name: "lines end as they may",
        script: "\r\n# all kinds of blanks\r\n\t\n\t00 \tarrive -0 0\t\r\n007 done 000000000000000001",
        trace: "\
0 arrive 1 0 0
  direct 1 s1
7 done 1
  free 1 s1
  end 1
",
    },
];

#[test]
fn worked_scripts_have_their_traces(rt: HostRuntime) {
    play(&rt, rt.alloc(), &ROWS);
}
