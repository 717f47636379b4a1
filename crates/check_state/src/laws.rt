ghost use Rattle.std.specs.Prelude.{◌≡◌, ◌↔◌, ℕ, ◌≤◌, Bool, true, false, List, ◌++◌};
ghost use Rattle.check_state.specs.Results.{has_run, is_up_after};
ghost use Rattle.check_state.specs.Runs.{StandInARow, HasFallen};
ghost use Rattle.check_state.specs.Shortened.{shortened};
ghost use Rattle.check_state.specs.Standing.{Standing, IsHealthOf};

/// The law of the definitions: a run is a row of equal results, and a server is up unless its list
/// of results has `fall` failures in a row with no `rise` successes in a row after them.
pub fn runs_decide()
    ensures runs { (count : ℕ) (which : Bool) (results : List Bool) → (has_run count which results ≡ true) ↔ StandInARow count which results }
    ensures falls { (rise fall : ℕ) (results : List Bool) → 1 ≤ rise → 1 ≤ fall → (is_up_after rise fall results ≡ false) ↔ HasFallen rise fall results }
{}

/// The law of shortened lists: whatever results follow, a shortened list decides the same as the
/// whole one, and a health of the one is a health of the other.
pub fn shortened_lists_stand()
    ensures up { (rise fall : ℕ) (results later : List Bool) → 1 ≤ rise → 1 ≤ fall → is_up_after rise fall (shortened rise fall results ++ later) ≡ is_up_after rise fall (results ++ later) }
    ensures health { (rise fall : ℕ) (results : List Bool) (health : Standing) → 1 ≤ rise → 1 ≤ fall → IsHealthOf rise fall results health → IsHealthOf rise fall (shortened rise fall results) health }
{}
