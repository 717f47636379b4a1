use crate::assertions::{holds, same};
use loop_table::Agenda;

#[test]
fn each_number_is_taken_once_a_round(rt: HostRuntime) {
    let mut agenda = Agenda::with_room(rt.alloc(), 8).expect(&rt, "memory");
    for number in [3, 5, 3, 8] {
        agenda.note(number);
    }
    agenda.put_off(3);
    agenda.put_off(3);
    let taken = (agenda.take(), agenda.take(), agenda.take());
    same(&rt, taken, (Some(3), Some(5), None));
    holds(&rt, !agenda.puts_nothing_off());
    agenda.turn_over();
    same(&rt, (agenda.take(), agenda.take()), (Some(3), None));
    holds(&rt, agenda.puts_nothing_off());
}
