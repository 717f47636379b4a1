use super::{Replay, play};

static ROWS: [Replay; 2] = [
    // 65 arrivals are one more than the places.
    Replay {
        name: "a full house refuses",
        script: "\
0 arrive 0 0\n0 arrive 0 0\n0 arrive 0 0\n0 arrive 0 0\n0 arrive 0 0\n0 arrive 0 0\n\
0 arrive 0 0\n0 arrive 0 0\n0 arrive 0 0\n0 arrive 0 0\n0 arrive 0 0\n0 arrive 0 0\n\
0 arrive 0 0\n0 arrive 0 0\n0 arrive 0 0\n0 arrive 0 0\n0 arrive 0 0\n0 arrive 0 0\n\
0 arrive 0 0\n0 arrive 0 0\n0 arrive 0 0\n0 arrive 0 0\n0 arrive 0 0\n0 arrive 0 0\n\
0 arrive 0 0\n0 arrive 0 0\n0 arrive 0 0\n0 arrive 0 0\n0 arrive 0 0\n0 arrive 0 0\n\
0 arrive 0 0\n0 arrive 0 0\n0 arrive 0 0\n0 arrive 0 0\n0 arrive 0 0\n0 arrive 0 0\n\
0 arrive 0 0\n0 arrive 0 0\n0 arrive 0 0\n0 arrive 0 0\n0 arrive 0 0\n0 arrive 0 0\n\
0 arrive 0 0\n0 arrive 0 0\n0 arrive 0 0\n0 arrive 0 0\n0 arrive 0 0\n0 arrive 0 0\n\
0 arrive 0 0\n0 arrive 0 0\n0 arrive 0 0\n0 arrive 0 0\n0 arrive 0 0\n0 arrive 0 0\n\
0 arrive 0 0\n0 arrive 0 0\n0 arrive 0 0\n0 arrive 0 0\n0 arrive 0 0\n0 arrive 0 0\n\
0 arrive 0 0\n0 arrive 0 0\n0 arrive 0 0\n0 arrive 0 0\n0 arrive 0 0\n\
1 done 2\n1 done 99\n",
        trace: "\
0 arrive 1 0 0\n  direct 1 s1\n\
0 arrive 2 0 0\n  join 2 *\n0 arrive 3 0 0\n  join 3 *\n0 arrive 4 0 0\n  join 4 *\n\
0 arrive 5 0 0\n  join 5 *\n0 arrive 6 0 0\n  join 6 *\n0 arrive 7 0 0\n  join 7 *\n\
0 arrive 8 0 0\n  join 8 *\n0 arrive 9 0 0\n  join 9 *\n0 arrive 10 0 0\n  join 10 *\n\
0 arrive 11 0 0\n  join 11 *\n0 arrive 12 0 0\n  join 12 *\n0 arrive 13 0 0\n  join 13 *\n\
0 arrive 14 0 0\n  join 14 *\n0 arrive 15 0 0\n  join 15 *\n0 arrive 16 0 0\n  join 16 *\n\
0 arrive 17 0 0\n  join 17 *\n0 arrive 18 0 0\n  join 18 *\n0 arrive 19 0 0\n  join 19 *\n\
0 arrive 20 0 0\n  join 20 *\n0 arrive 21 0 0\n  join 21 *\n0 arrive 22 0 0\n  join 22 *\n\
0 arrive 23 0 0\n  join 23 *\n0 arrive 24 0 0\n  join 24 *\n0 arrive 25 0 0\n  join 25 *\n\
0 arrive 26 0 0\n  join 26 *\n0 arrive 27 0 0\n  join 27 *\n0 arrive 28 0 0\n  join 28 *\n\
0 arrive 29 0 0\n  join 29 *\n0 arrive 30 0 0\n  join 30 *\n0 arrive 31 0 0\n  join 31 *\n\
0 arrive 32 0 0\n  join 32 *\n0 arrive 33 0 0\n  join 33 *\n0 arrive 34 0 0\n  join 34 *\n\
0 arrive 35 0 0\n  join 35 *\n0 arrive 36 0 0\n  join 36 *\n0 arrive 37 0 0\n  join 37 *\n\
0 arrive 38 0 0\n  join 38 *\n0 arrive 39 0 0\n  join 39 *\n0 arrive 40 0 0\n  join 40 *\n\
0 arrive 41 0 0\n  join 41 *\n0 arrive 42 0 0\n  join 42 *\n0 arrive 43 0 0\n  join 43 *\n\
0 arrive 44 0 0\n  join 44 *\n0 arrive 45 0 0\n  join 45 *\n0 arrive 46 0 0\n  join 46 *\n\
0 arrive 47 0 0\n  join 47 *\n0 arrive 48 0 0\n  join 48 *\n0 arrive 49 0 0\n  join 49 *\n\
0 arrive 50 0 0\n  join 50 *\n0 arrive 51 0 0\n  join 51 *\n0 arrive 52 0 0\n  join 52 *\n\
0 arrive 53 0 0\n  join 53 *\n0 arrive 54 0 0\n  join 54 *\n0 arrive 55 0 0\n  join 55 *\n\
0 arrive 56 0 0\n  join 56 *\n0 arrive 57 0 0\n  join 57 *\n0 arrive 58 0 0\n  join 58 *\n\
0 arrive 59 0 0\n  join 59 *\n0 arrive 60 0 0\n  join 60 *\n0 arrive 61 0 0\n  join 61 *\n\
0 arrive 62 0 0\n  join 62 *\n0 arrive 63 0 0\n  join 63 *\n0 arrive 64 0 0\n  join 64 *\n\
refused 2\nrefused 5\nrefused 4\n",
    },
    Replay {
        name: "a long queue of a fallen server moves by ticket",
        script: "\
redispatch\nserver a 1 0 1 2 3\nserver b 1 0 1\nserver c 1 0 1\n\
0 arrive 0 0 a\n0 arrive 0 0 a\n0 arrive 0 0 a\n0 arrive 0 0 a\n0 arrive 0 0 a\n\
0 arrive 0 0 a\n0 arrive 0 0 a\n0 arrive 0 0 a\n0 arrive 0 0 a\n0 arrive 0 0 a\n\
0 arrive 0 0 a\n0 arrive 0 0 a\n0 arrive 0 0 a\n0 arrive 0 0 a\n0 arrive 0 0 a\n\
0 arrive 0 0 a\n0 arrive 0 0 a\n0 arrive 0 0 a\n0 arrive 0 0 a\n0 arrive 0 0 a\n\
0 arrive 0 0 a\n0 arrive 0 0 a\n0 arrive 0 0 a\n0 arrive 0 0 a\n0 arrive 0 0 a\n\
0 arrive 0 0 a\n0 arrive 0 0 a\n0 arrive 0 0 a\n0 arrive 0 0 a\n0 arrive 0 0 a\n\
0 arrive 0 0 a\n0 arrive 0 0 a\n0 arrive 0 0 a\n0 arrive 0 0 a\n0 arrive 0 0 a\n\
0 arrive 0 0 a\n0 arrive 0 0 a\n0 arrive 0 0 a\n0 arrive 0 0 a\n0 arrive 0 0 a\n\
4 check a down\n5 check a down\n6 check a down\n",
        trace: "\
0 arrive 1 0 0 a\n  direct 1 a\n0 arrive 2 0 0 a\n  join 2 a\n\
0 arrive 3 0 0 a\n  join 3 a\n0 arrive 4 0 0 a\n  join 4 a\n\
0 arrive 5 0 0 a\n  join 5 a\n0 arrive 6 0 0 a\n  join 6 a\n\
0 arrive 7 0 0 a\n  join 7 a\n0 arrive 8 0 0 a\n  join 8 a\n\
0 arrive 9 0 0 a\n  join 9 a\n0 arrive 10 0 0 a\n  join 10 a\n\
0 arrive 11 0 0 a\n  join 11 a\n0 arrive 12 0 0 a\n  join 12 a\n\
0 arrive 13 0 0 a\n  join 13 a\n0 arrive 14 0 0 a\n  join 14 a\n\
0 arrive 15 0 0 a\n  join 15 a\n0 arrive 16 0 0 a\n  join 16 a\n\
0 arrive 17 0 0 a\n  join 17 a\n0 arrive 18 0 0 a\n  join 18 a\n\
0 arrive 19 0 0 a\n  join 19 a\n0 arrive 20 0 0 a\n  join 20 a\n\
0 arrive 21 0 0 a\n  join 21 a\n0 arrive 22 0 0 a\n  join 22 a\n\
0 arrive 23 0 0 a\n  join 23 a\n0 arrive 24 0 0 a\n  join 24 a\n\
0 arrive 25 0 0 a\n  join 25 a\n0 arrive 26 0 0 a\n  join 26 a\n\
0 arrive 27 0 0 a\n  join 27 a\n0 arrive 28 0 0 a\n  join 28 a\n\
0 arrive 29 0 0 a\n  join 29 a\n0 arrive 30 0 0 a\n  join 30 a\n\
0 arrive 31 0 0 a\n  join 31 a\n0 arrive 32 0 0 a\n  join 32 a\n\
0 arrive 33 0 0 a\n  join 33 a\n0 arrive 34 0 0 a\n  join 34 a\n\
0 arrive 35 0 0 a\n  join 35 a\n0 arrive 36 0 0 a\n  join 36 a\n\
0 arrive 37 0 0 a\n  join 37 a\n0 arrive 38 0 0 a\n  join 38 a\n\
0 arrive 39 0 0 a\n  join 39 a\n0 arrive 40 0 0 a\n  join 40 a\n\
4 check a down\n5 check a down\n6 check a down\n  health a down\n  \
move 2 a\n  move 3 a\n  move 4 a\n  move 5 a\n  move 6 a\n  move 7 a\n  \
move 8 a\n  move 9 a\n  move 10 a\n  move 11 a\n  move 12 a\n  move 13 a\n  \
move 14 a\n  move 15 a\n  move 16 a\n  move 17 a\n  move 18 a\n  move 19 a\n  \
move 20 a\n  move 21 a\n  move 22 a\n  move 23 a\n  move 24 a\n  move 25 a\n  \
move 26 a\n  move 27 a\n  move 28 a\n  move 29 a\n  move 30 a\n  move 31 a\n  \
move 32 a\n  move 33 a\n  move 34 a\n  move 35 a\n  move 36 a\n  move 37 a\n  \
move 38 a\n  move 39 a\n  move 40 a\n  \
grant 2 * b\n  grant 3 * c\nqueue * class 0 granted 2 worst 6 due 0 after 0 to 124 critical 2\n",
    },
];

#[test]
fn long_queues_move_in_order_and_end_at_the_places(rt: HostRuntime) {
    play(&rt, rt.alloc(), &ROWS);
}
