ghost use Rattle.std.specs.Prelude.{◌≡◌, pos, ℤ, List, [], ◌∷◌, Some, None};
ghost use Rattle.due_key.specs.Range.{IsBetween};
ghost use Rattle.due_key.specs.declared.class.TheConstants.{LOWEST_CLASS, HIGHEST_CLASS};
ghost use Rattle.log_entries.specs.declared.queue.Queue.{Queue};
ghost use Rattle.late_cert.specs.Running.{IsWorstOf, worst_so_far};
ghost use Rattle.late_cert.specs.declared.table.Running.{Running};
ghost use Rattle.log_reading.specs.Grants.{stays};
ghost use Rattle.log_entries.specs.declared.queue.Queue.TheVariants.{Backend};
ghost use Rattle.late_cert.specs.Lateness.{latenesses, IsAssignment};
ghost use Rattle.late_cert.specs.Worked.{overtaking, stay_2, stay_3, chosen, one_is_missing, joined_before_the_cut, worst_is_too_small, waited_before, chosen_before, joined_in_the_window_before};
ghost use Rattle.log_reading.specs.Readable.{IsReadable};
ghost use Rattle.late_cert.specs.declared.report.Report.{Report};
ghost use Rattle.late_cert.specs.Reports.{IsChosenReport, IsSoundReport, IsLeast, AreReports};
ghost use Rattle.std.specs.List.{AllByRecursion};
ghost use Rattle.log_entries.specs.Determined.{AreSameHistories};
ghost use Rattle.log_entries.specs.Histories.{History};
ghost use Rattle.log_entries.specs.Legal.{IsLegal};
ghost use Rattle.log_reading.specs.Windows.{Window, window_in};
ghost use Rattle.log_entries.specs.declared.setup.Setup.{Setup};
ghost use Rattle.log_entries.specs.States.{State};
ghost use Rattle.log_reading.specs.Ordered.{AllKeepOrder, HaveArrived};

/// The law of least lateness: for every readable log and sound report, each assignment of the slots
/// of the queue and class to their stays, where each slot comes after its stay joined, has a
/// greatest lateness of at least the report's worst, and the log's own assignment has exactly that.
pub fn sound_is_least()
    ensures { (window : Window) (report : Report) → IsReadable window → IsSoundReport window report → IsLeast window report }
{}

/// The law of chosen reports: where a window's base knows the requests that it begins with, the
/// tickets of its arrivals are new and each of its grants takes the least key of its queue, the
/// chosen report of each queue and class is sound.
pub fn chosen_is_sound()
    ensures { (setup : Setup) (start : State) (window : Window) (report : Report) → HaveArrived window.base [] start.rows → AllKeepOrder setup start window.entries → IsChosenReport window report → IsSoundReport window report }
{}

/// The law of legal logs' reports: each of them is sound, so no assignment has a smaller greatest
/// lateness than the log's own.
pub fn reports_of_legal_logs_are_sound()
    ensures sound { (history : History) (reports : List Report) → IsLegal history → AreReports (window_in history) reports → AllByRecursion (IsSoundReport (window_in history)) reports }
    ensures least { (history : History) (reports : List Report) → IsLegal history → AreReports (window_in history) reports → AllByRecursion (IsLeast (window_in history)) reports }
{}

/// The law of determined reports: the chosen reports of legal histories that are the same except
/// for places are one list.
pub fn reports_are_determined()
    ensures { (history other : History) (reports others : List Report) → IsLegal history → IsLegal other → AreSameHistories history other → AreReports (window_in history) reports → AreReports (window_in other) others → others ≡ reports }
{}

/// The law of the worked examples: a window's stays, the other assignment of their slots, a list
/// that isn't an assignment, the chosen report, and reports that aren't sound, each for one reason;
/// and the same for a window whose requests waited before it.
pub fn worked_reports()
    ensures stays { stays overtaking Backend (pos 0) ≡ stay_3 ∷ stay_2 ∷ [] }
    ensures swapped { IsAssignment (stay_3 ∷ stay_2 ∷ []) (14 ∷ 10 ∷ []) }
    ensures swapped_is_late { latenesses overtaking (stay_3 ∷ stay_2 ∷ []) (14 ∷ 10 ∷ []) ≡ pos 23 ∷ pos 9 ∷ [] }
    ensures joined_later { IsAssignment (stay_3 ∷ stay_2 ∷ []) (5 ∷ 10 ∷ []) → ⊥ }
    ensures chosen { IsChosenReport overtaking chosen }
    ensures sound { IsSoundReport overtaking chosen }
    ensures one_is_missing { IsSoundReport overtaking one_is_missing → ⊥ }
    ensures joined_before_the_cut { IsSoundReport overtaking joined_before_the_cut → ⊥ }
    ensures worst_is_too_small { IsSoundReport overtaking worst_is_too_small → ⊥ }
    ensures chosen_before { IsChosenReport waited_before chosen_before }
    ensures sound_before { IsSoundReport waited_before chosen_before }
    ensures joined_in_the_window_before { IsSoundReport waited_before joined_in_the_window_before → ⊥ }
{}

/// The law of the running worst: where it is that of a window, it agrees with a sound report for
/// each queue and class, and is `None` only where no stay of it ended with a slot.
pub fn running_worst_is_certified()
    ensures worst { (window : Window) (running : Running) (report : Report) → IsWorstOf window running → IsSoundReport window report → IsBetween LOWEST_CLASS HIGHEST_CLASS report.class → worst_so_far running report.queue report.class ≡ Some report.worst }
    ensures none { (window : Window) (running : Running) (queue : Queue) (class : ℤ) → IsWorstOf window running → IsBetween LOWEST_CLASS HIGHEST_CLASS class → worst_so_far running queue class ≡ None → stays window queue class ≡ [] }
{}
