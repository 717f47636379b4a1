use super::{Replay, play};

static ROWS: [Replay; 6] = [
    Replay {
        name: "stays of the base are reported in the next window",
        script: "0 arrive 0 0\n1 arrive 0 0\n2 arrive 0 -5\nroll\n10 done 1\n20 done 3\n",
        trace: "\
0 arrive 1 0 0
  direct 1 s1
1 arrive 2 0 1
  join 2 *
2 arrive 3 0 -3
  join 3 *
roll
10 done 1
  free 1 s1
  end 1
  grant 3 * s1
20 done 3
  free 3 s1
  end 3
  grant 2 * s1
queue * class 0 granted 2 worst 19 due 1 after 0 to 8 critical 3 2
",
    },
    Replay {
        name: "each window has its reports",
        script: "0 arrive 0 0\n1 arrive 0 99\n10 done 1\nroll\n15 arrive 0 -10\n20 done 2\n",
        trace: "\
0 arrive 1 0 0
  direct 1 s1
1 arrive 2 0 100
  join 2 *
10 done 1
  free 1 s1
  end 1
  grant 2 * s1
roll
queue * class 0 granted 1 worst -90 due 100 after 0 to 8 critical 2
15 arrive 3 0 5
  join 3 *
20 done 2
  free 2 s1
  end 2
  grant 3 * s1
queue * class 0 granted 1 worst 15 due 5 after 0 to 6 critical 3
",
    },
    Replay {
        name: "a full log has room in the next window",
        script: "\
places 1
log 16
0 arrive 0 0
1 arrive 0 0
2 done 1
3 arrive 0 0
4 done 2
roll
4 done 2
",
        trace: "\
0 arrive 1 0 0
  direct 1 s1
refused 2
2 done 1
  free 1 s1
  end 1
3 arrive 2 0 3
  direct 2 s1
refused 3
roll
4 done 2
  free 2 s1
  end 2
",
    },
    Replay {
        name: "a full log comes before an unknown name",
        script: "places 1\nlog 10\n0 arrive 0 0\n1 limit s2 2\nroll\nroll\n1 limit s2 2\n1 limit s1 2\n",
        trace: "\
0 arrive 1 0 0
  direct 1 s1
refused 3
roll
roll
refused 6
1 limit s1 2
",
    },
    // Before anything else an event needs twice as many free entries as places, and 8 more, here 10.
    Replay {
        name: "a full log refuses each event",
        script: "\
places 1
log 10
0 arrive 0 0
1 done 1
1 fail 1
1 abort 1
1 tick
1 check s1 up
1 check zz up
1 limit s1 2
1 done 9
1 arrive 0 0
",
        trace: "\
0 arrive 1 0 0
  direct 1 s1
refused 3
refused 3
refused 3
refused 3
refused 3
refused 3
refused 3
refused 3
refused 3
",
    },
    Replay {
        name: "and an arrival",
        script: "\
places 1
log 9
0 arrive 0 0
1 done 1
1 fail 1
1 abort 1
1 tick
1 check s1 up
1 check zz up
1 limit s1 2
1 done 9
1 arrive 0 0
",
        trace: "\
refused 3
refused 3
refused 3
refused 3
refused 3
refused 3
refused 3
refused 3
refused 3
refused 3
",
    },
];

#[test]
fn each_window_has_its_own_log_and_reports(rt: HostRuntime) {
    play(&rt, rt.alloc(), &ROWS);
}
