ghost use Rattle.log_entries.specs.Bounds.{IsInBounds};
ghost use Rattle.log_entries.specs.Closings.{ClosedTakeNobody, ClosedServeNoMore};
ghost use Rattle.log_entries.specs.Determined.{events, unplaced, AreSameButForPlaces, IsSameButForPlaces, AreSameHistories, AreRefusedAlike};
ghost use Rattle.log_entries.specs.Dispatch.{IsDispatched};
ghost use Rattle.log_entries.specs.Histories.{History, state_of, next_window, begins_event};
ghost use Rattle.log_entries.specs.Judgement.{Stage, AllMayCome, stage_after};
ghost use Rattle.log_entries.specs.Legal.{AddsEvent, IsBase, IsLegal};
ghost use Rattle.log_entries.specs.Setups.{IsSound};
ghost use Rattle.log_entries.specs.States.{State, opening_state, after_all, Point, point_after};
ghost use Rattle.log_entries.specs.declared.entry.Entry.{Entry};
ghost use Rattle.std.specs.Prelude.{◌≡◌, ◌↔◌, ℕ, ◌+◌, ◌++◌, false, List, length, All};
ghost use Rattle.log_entries.specs.declared.setup.Setup.{Setup};
ghost use Rattle.log_entries.specs.Runs.{Call, IsRun};
ghost use Rattle.log_entries.specs.Worked.{worked, worked_by_two, worked_by_weights, worked_by_queues, worked_by_room, first_come_first_served, idle_slot, grant_above_the_limit, due_date_of_no_offset, class_out_of_range, moment_out_of_range, end_is_missing, ticket_left_out, backend_head_first, more_loaded_server, tie_against_the_cursor, loads_without_weights, loads_without_queues, waits_beside_room};
ghost use Rattle.log_entries.specs.WorkedRight.{redispatch_to_the_other_server, told_by_rising_ticket, fall_moves_its_queue};
ghost use Rattle.log_entries.specs.WorkedWindows.{worked_by_pairs, raised_limit_grants, lowered_limit_is_reached, waits_of_the_base_are_served, grant_at_the_lowered_limit, raised_limit_grants_nothing, limit_of_no_server, class_of_the_base_is_out_of_range, due_date_of_the_base_is_too_late, wait_of_the_base_is_to_come, waits_of_the_base_are_forgotten, cursor_is_reset, tickets_begin_anew};
ghost use Rattle.log_entries.specs.WorkedClosings.{closed_server_serves_on, opened_server_grants, waits_for_an_opening, pin_to_a_closed_server_is_ignored, closing_moves_its_queue, grant_at_a_closed_server, closing_stops_a_request, opened_server_grants_nothing, waits_for_a_closed_server, balanced_to_a_closed_server, no_server_beside_a_closed_one, closing_leaves_its_queue, closing_moves_without_redispatch};
ghost use Rattle.log_entries.specs.WorkedChanges.{worked_with_checks, worked_in_time, worked_with_a_retry, retry_past_the_retries, failure_counted_twice, redispatch_keeps_the_pin, redispatch_to_the_failed_server, redispatch_before_the_grant, no_server_beside_a_usable_one, told_one_millisecond_early, told_by_falling_ticket, expired_and_not_told, abort_of_a_served_request, failure_of_a_waiting_request, fall_leaves_its_queue, moves_by_ticket, grant_before_the_moves, rise_grants_nothing, rise_is_not_told, down_after_its_rise, down_though_it_answers, fall_grants_nothing, moved_without_a_fall, redispatched_by_a_new_due_date, served_by_a_fallen_server};

/// The law of legal logs: whatever calls a dispatcher gets, in whatever order, as long as its log
/// is legal no server serves more than its limit, every request is in exactly one place, and no
/// server has a free slot while a request that may take it waits.
pub fn legal_logs_are_dispatched()
    ensures { (history : History) → IsLegal history → IsDispatched history }
{}

/// The law of closed servers: from the entry that closes a server to the next one that sets its
/// limit, no entry gives a request a slot of the server or a stay in its queue, and the server
/// serves no more than when it was closed.
pub fn closed_servers_take_nobody()
    ensures given { ClosedTakeNobody }
    ensures served { ClosedServeNoMore }
{}

/// The law of bounds: a legal log keeps within its setup. It has as many places as the setup says,
/// it names only the setup's servers, and its tickets and moments stay in range.
pub fn legal_logs_keep_within()
    ensures { (history : History) → IsLegal history → IsInBounds history }
{}

/// The law of parts: the state after two lists of entries is the state after the second one from
/// the state after the first one. The entries of both lists may come exactly where each part may.
/// Only an event changes the moment.
pub fn entries_go_on_from_entries()
    ensures state { (setup : Setup) (state : State) (front back : List Entry) → after_all setup state (front ++ back) ≡ after_all setup (after_all setup state front) back }
    ensures stage { (stage : Stage) (front back : List Entry) → stage_after stage (front ++ back) ≡ stage_after (stage_after stage front) back }
    ensures judged { (point : Point) (stage : Stage) (front back : List Entry) → AllMayCome point stage (front ++ back) ↔ (AllMayCome point stage front × AllMayCome (point_after point front) (stage_after stage front) back) }
    ensures moment { (setup : Setup) (state : State) (brought : List Entry) → All (λ entry. begins_event entry ≡ false) brought → (after_all setup state brought).moment ≡ state.moment }
{}

/// The law of determined logs: two legal logs of one setup and one base with the same events,
/// places of arrivals included, are equal. So each pick, each grant, each move and their order
/// follow from the events alone. Where only the places differ, the logs and the states that they
/// leave differ in nothing else.
pub fn legal_logs_are_determined()
    ensures placed { (history other : History) → IsLegal history → IsLegal other → other.setup ≡ history.setup → other.base ≡ history.base → events other.log ≡ events history.log → other ≡ history }
    ensures unplaced { (history other : History) → IsLegal history → IsLegal other → other.setup ≡ history.setup → IsSameButForPlaces history.base other.base → AreSameButForPlaces (events history.log) (events other.log) → AreSameButForPlaces history.log other.log × IsSameButForPlaces (state_of history) (state_of other) }
{}

/// The law of determined calls: two legal histories that are the same except for the places of
/// their rows refuse the same calls, and the entries that an accepted call adds, or the base that a
/// roll makes, are the same except for places. So the places of requests decide nothing.
pub fn calls_are_determined()
    ensures refused { (history other : History) → IsLegal history → IsLegal other → AreSameHistories history other → AreRefusedAlike history other }
    ensures added { (history other next other_next : History) (event other_event : Entry) → IsLegal history → IsLegal other → AreSameHistories history other → AddsEvent history next event → AddsEvent other other_next other_event → unplaced event ≡ unplaced other_event → AreSameHistories next other_next }
    ensures rolled { (history other : History) → AreSameHistories history other → AreSameHistories (next_window history) (next_window other) }
{}

/// The law of windows: a dispatcher's first window begins at a proper base, and so does the window
/// after any legal log. So the facts about a proper base hold for every window.
pub fn windows_begin_at_bases()
    ensures first { (setup : Setup) → IsBase setup (opening_state setup) }
    ensures next { (history : History) → IsSound history.setup → IsLegal history → IsLegal (next_window history) }
{}

/// The law of all runs: after any list of calls since a dispatcher was made, each of which was
/// refused, added its event with the entries that follow, or began the next window, the log is
/// legal and the same facts hold.
pub fn runs_are_dispatched()
    ensures legal { (setup : Setup) (calls : List Call) (history : History) → IsRun setup calls history → IsLegal history }
    ensures dispatched { (setup : Setup) (calls : List Call) (history : History) → IsRun setup calls history → IsDispatched history }
{}

/// The law of the worked examples: each of these logs is legal.
pub fn worked_logs_are_legal()
    ensures redispatch_to_the_other_server { IsLegal (worked_with_checks redispatch_to_the_other_server) }
    ensures told_by_rising_ticket { IsLegal (worked_in_time told_by_rising_ticket) }
    ensures fall_moves_its_queue { IsLegal (worked_with_checks fall_moves_its_queue) }
    ensures raised_limit_grants { IsLegal (worked_by_pairs raised_limit_grants) }
    ensures lowered_limit_is_reached { IsLegal (worked_by_pairs lowered_limit_is_reached) }
    ensures waits_of_the_base_are_served { IsLegal waits_of_the_base_are_served }
    ensures closed_server_serves_on { IsLegal (worked_by_pairs closed_server_serves_on) }
    ensures opened_server_grants { IsLegal (worked_by_pairs opened_server_grants) }
    ensures waits_for_an_opening { IsLegal (worked_by_pairs waits_for_an_opening) }
    ensures pin_to_a_closed_server_is_ignored { IsLegal (worked_with_checks pin_to_a_closed_server_is_ignored) }
    ensures closing_moves_its_queue { IsLegal (worked_with_checks closing_moves_its_queue) }
{}

/// The law of the wrong examples: none of these logs, each wrong in one way, is legal.
pub fn wrong_logs_are_not_legal()
    ensures first_come_first_served { IsLegal (worked first_come_first_served) → ⊥ }
    ensures idle_slot { IsLegal (worked idle_slot) → ⊥ }
    ensures grant_above_the_limit { IsLegal (worked grant_above_the_limit) → ⊥ }
    ensures due_date_of_no_offset { IsLegal (worked due_date_of_no_offset) → ⊥ }
    ensures class_out_of_range { IsLegal (worked class_out_of_range) → ⊥ }
    ensures moment_out_of_range { IsLegal (worked moment_out_of_range) → ⊥ }
    ensures end_is_missing { IsLegal (worked end_is_missing) → ⊥ }
    ensures ticket_left_out { IsLegal (worked ticket_left_out) → ⊥ }
    ensures backend_head_first { IsLegal (worked backend_head_first) → ⊥ }
    ensures more_loaded_server { IsLegal (worked_by_two more_loaded_server) → ⊥ }
    ensures tie_against_the_cursor { IsLegal (worked_by_two tie_against_the_cursor) → ⊥ }
    ensures loads_without_weights { IsLegal (worked_by_weights loads_without_weights) → ⊥ }
    ensures loads_without_queues { IsLegal (worked_by_queues loads_without_queues) → ⊥ }
    ensures waits_beside_room { IsLegal (worked_by_room waits_beside_room) → ⊥ }
    ensures retry_past_the_retries { IsLegal (worked retry_past_the_retries) → ⊥ }
    ensures failure_counted_twice { IsLegal (worked failure_counted_twice) → ⊥ }
    ensures redispatch_keeps_the_pin { IsLegal (worked_with_checks redispatch_keeps_the_pin) → ⊥ }
    ensures redispatch_to_the_failed_server { IsLegal (worked_with_checks redispatch_to_the_failed_server) → ⊥ }
    ensures redispatch_before_the_grant { IsLegal (worked_with_checks redispatch_before_the_grant) → ⊥ }
    ensures redispatched_by_a_new_due_date { IsLegal (worked_with_a_retry redispatched_by_a_new_due_date) → ⊥ }
    ensures no_server_beside_a_usable_one { IsLegal (worked no_server_beside_a_usable_one) → ⊥ }
    ensures told_one_millisecond_early { IsLegal (worked_in_time told_one_millisecond_early) → ⊥ }
    ensures told_by_falling_ticket { IsLegal (worked_in_time told_by_falling_ticket) → ⊥ }
    ensures expired_and_not_told { IsLegal (worked_in_time expired_and_not_told) → ⊥ }
    ensures abort_of_a_served_request { IsLegal (worked abort_of_a_served_request) → ⊥ }
    ensures failure_of_a_waiting_request { IsLegal (worked failure_of_a_waiting_request) → ⊥ }
    ensures fall_leaves_its_queue { IsLegal (worked_with_checks fall_leaves_its_queue) → ⊥ }
    ensures moves_by_ticket { IsLegal (worked_with_checks moves_by_ticket) → ⊥ }
    ensures grant_before_the_moves { IsLegal (worked_with_checks grant_before_the_moves) → ⊥ }
    ensures fall_grants_nothing { IsLegal (worked_with_checks fall_grants_nothing) → ⊥ }
    ensures moved_without_a_fall { IsLegal (worked_with_checks moved_without_a_fall) → ⊥ }
    ensures rise_grants_nothing { IsLegal (worked_with_checks rise_grants_nothing) → ⊥ }
    ensures rise_is_not_told { IsLegal (worked_with_checks rise_is_not_told) → ⊥ }
    ensures down_after_its_rise { IsLegal (worked_with_checks down_after_its_rise) → ⊥ }
    ensures down_though_it_answers { IsLegal (worked_with_checks down_though_it_answers) → ⊥ }
    ensures served_by_a_fallen_server { IsLegal (worked_with_checks served_by_a_fallen_server) → ⊥ }
    ensures grant_at_the_lowered_limit { IsLegal (worked_by_pairs grant_at_the_lowered_limit) → ⊥ }
    ensures raised_limit_grants_nothing { IsLegal (worked_by_pairs raised_limit_grants_nothing) → ⊥ }
    ensures limit_of_no_server { IsLegal (worked_by_pairs limit_of_no_server) → ⊥ }
    ensures class_of_the_base_is_out_of_range { IsLegal class_of_the_base_is_out_of_range → ⊥ }
    ensures due_date_of_the_base_is_too_late { IsLegal due_date_of_the_base_is_too_late → ⊥ }
    ensures wait_of_the_base_is_to_come { IsLegal wait_of_the_base_is_to_come → ⊥ }
    ensures waits_of_the_base_are_forgotten { IsLegal waits_of_the_base_are_forgotten → ⊥ }
    ensures cursor_is_reset { IsLegal cursor_is_reset → ⊥ }
    ensures tickets_begin_anew { IsLegal tickets_begin_anew → ⊥ }
    ensures grant_at_a_closed_server { IsLegal (worked_by_pairs grant_at_a_closed_server) → ⊥ }
    ensures closing_stops_a_request { IsLegal (worked_by_pairs closing_stops_a_request) → ⊥ }
    ensures opened_server_grants_nothing { IsLegal (worked_by_pairs opened_server_grants_nothing) → ⊥ }
    ensures waits_for_a_closed_server { IsLegal (worked_with_checks waits_for_a_closed_server) → ⊥ }
    ensures balanced_to_a_closed_server { IsLegal (worked_by_queues balanced_to_a_closed_server) → ⊥ }
    ensures no_server_beside_a_closed_one { IsLegal (worked no_server_beside_a_closed_one) → ⊥ }
    ensures closing_leaves_its_queue { IsLegal (worked_with_checks closing_leaves_its_queue) → ⊥ }
    ensures closing_moves_without_redispatch { IsLegal (worked closing_moves_without_redispatch) → ⊥ }
{}
