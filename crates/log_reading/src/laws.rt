ghost use Rattle.std.specs.Prelude.{◌≡◌, ℕ, ◌+◌, ◌≤◌, List, [], ◌∷◌, ◌++◌, length, if◌then◌else◌};
ghost use Rattle.std.specs.List.{AllByRecursion};
ghost use Rattle.log_entries.specs.declared.entry.Entry.{Entry};
ghost use Rattle.log_entries.specs.declared.queue.Queue.{Queue};
ghost use Rattle.log_entries.specs.declared.setup.Setup.{Setup};
ghost use Rattle.log_entries.specs.Judgement.{AllMayCome, granting};
ghost use Rattle.log_entries.specs.States.{State, after_all, point_of};
ghost use Rattle.log_entries.specs.Determined.{AreSameHistories};
ghost use Rattle.log_entries.specs.Histories.{History};
ghost use Rattle.log_entries.specs.Legal.{IsBase, IsLegal};
ghost use Rattle.log_reading.specs.Grants.{moment_at, grants, key_known, newer_key, joins, joining_of};
ghost use Rattle.log_reading.specs.Ordered.{AllKeepOrder, HaveArrived, HaveJoined};
ghost use Rattle.log_reading.specs.Windows.{Window, base_rows, window_in};
ghost use Rattle.log_reading.specs.declared.base.BaseRow.{BaseRow};
ghost use Rattle.log_reading.specs.Readable.{IsReadable};
ghost use Rattle.log_reading.specs.Timely.{IsTimely};
ghost use Rattle.log_reading.specs.Worked.{granted_once, its_grant, granted_from_the_base, grant_from_the_base, waited_elsewhere, begins_inside_an_event, moment_falls, joined_another_queue, never_arrived};

/// The law of readable windows: moments never fall from one position to a later one, and each grant
/// has the moment of its slot, which is after the position where the wait began.
pub fn readable_logs_are_timely()
    ensures moments { (window : Window) (p q : ℕ) → IsReadable window → p ≤ q → moment_at window.entries p ≤ moment_at window.entries q }
    ensures grants { (window : Window) → IsReadable window → AllByRecursion (IsTimely window) (grants window) }
{}

/// The law of one more entry: its effect on a ticket's key, and on the position where it last joined a queue.
pub fn entries_add_up()
    ensures key { (base : List BaseRow) (ticket : ℕ) (log : List Entry) (entry : Entry) → key_known base ticket (log ++ entry ∷ []) ≡ newer_key ticket (key_known base ticket log) entry }
    ensures joining { (ticket : ℕ) (queue : Queue) (log : List Entry) (entry : Entry) → joining_of ticket queue (log ++ entry ∷ []) ≡ (if joins ticket queue entry then length log + 1 else joining_of ticket queue log) }
{}

/// The law of rows: where a window begins at a proper base and respects the order of its queues,
/// each row that it leaves has the class and the due date of its ticket's last arrival, and each
/// row that waits was put into its queue by an entry or waited there in the base.
pub fn rows_have_arrived()
    ensures arrived { (setup : Setup) (base : State) (log : List Entry) → IsBase setup base → AllKeepOrder setup base log → HaveArrived (base_rows base.rows) log (after_all setup base log).rows }
    ensures joined { (setup : Setup) (base : State) (log : List Entry) → IsBase setup base → HaveJoined (base_rows base.rows) log (after_all setup base log).rows }
{}

/// The law of judged logs: where a window begins at a proper base and each of its entries may come
/// where it stands, it respects the order of its queues and is readable.
pub fn judged_logs_are_readable()
    ensures order { (setup : Setup) (base : State) (log : List Entry) → IsBase setup base → AllMayCome (point_of setup base 0) granting log → AllKeepOrder setup base log }
    ensures readable { (setup : Setup) (base : State) (log : List Entry) → IsBase setup base → AllMayCome (point_of setup base 0) granting log → IsReadable (record { base = base_rows base.rows; entries = log }) }
{}

/// The law of places: windows of legal histories that are the same except for places have the same
/// grants, and the same moment at each position.
pub fn grants_tell_no_place()
    ensures grants { (history other : History) → IsLegal history → IsLegal other → AreSameHistories history other → grants (window_in other) ≡ grants (window_in history) }
    ensures moments { (history other : History) (position : ℕ) → AreSameHistories history other → moment_at other.log position ≡ moment_at history.log position }
{}

/// The law of the worked examples: two windows that are readable, with their grants, and others,
/// each wrong in one way, that aren't.
pub fn worked_logs()
    ensures readable { IsReadable granted_once }
    ensures grants { grants granted_once ≡ its_grant ∷ [] }
    ensures readable_from_the_base { IsReadable granted_from_the_base }
    ensures grants_from_the_base { grants granted_from_the_base ≡ grant_from_the_base ∷ [] }
    ensures begins_inside_an_event { IsReadable begins_inside_an_event → ⊥ }
    ensures moment_falls { IsReadable moment_falls → ⊥ }
    ensures joined_another_queue { IsReadable joined_another_queue → ⊥ }
    ensures never_arrived { IsReadable never_arrived → ⊥ }
    ensures waited_elsewhere { IsReadable waited_elsewhere → ⊥ }
{}
