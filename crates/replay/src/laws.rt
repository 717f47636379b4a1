ghost use Rattle.std.specs.Prelude.{◌≡◌, ℕ, List};
ghost use Rattle.replay.specs.TraceTexts.{IsTraceOf};

/// The law of the one trace: a script has exactly one trace, byte for byte, in whatever places its
/// requests are kept.
pub fn a_script_has_one_trace()
    ensures { (script text other : List ℕ) → IsTraceOf script text → IsTraceOf script other → other ≡ text }
{}
