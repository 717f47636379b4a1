ghost use Rattle.std.specs.Prelude.{◌≡◌, ◌≢◌, ◌++◌, ℕ, List, Bool, true, false};
ghost use Rattle.base_lists.specs.Fronts.{IsFront};
ghost use Rattle.http_bodies.specs.Framings.{IsBody, LacksBody};
ghost use Rattle.http_bodies.specs.declared.framing.Framing as framings;
ghost use Rattle.http_bodies.specs.Readings.{read, start_of};
ghost use Rattle.http_bodies.specs.Runs.{IsSent, Step, Runs, all_taken, all_given};
ghost use Rattle.http_bodies.specs.Stops.{is_done, is_bad};

use crate::coding::Coding;
use crate::framing::Framing;

/// A new coding makes of an input what the bodies at its front become: it writes the text of as
/// much as is there, is done where a whole body stands there, and is bad only where none can stand
/// there, whatever follows.
pub fn a_coding_reads_bodies()
    ensures sent { (framing : framings.Framing) (framed : Bool) (input : List ℕ) → IsSent framing framed input (read (start_of framing framed) input).text }
    ensures whole { (framing : framings.Framing) (framed : Bool) (used text rest : List ℕ) → framing ≢ Framing.ToEnd → IsBody framing framed used text
        → ((read (start_of framing framed) (used ++ rest)).text ≡ text) × ((read (start_of framing framed) (used ++ rest)).rest ≡ rest)
        × (is_done (read (start_of framing framed) (used ++ rest)).coding ≡ true) }
    ensures done { (framing : framings.Framing) (framed : Bool) (input : List ℕ) → is_done (read (start_of framing framed) input).coding ≡ true
        → (used : List ℕ) × (input ≡ used ++ (read (start_of framing framed) input).rest)
        × IsBody framing framed used (read (start_of framing framed) input).text }
    ensures bad { (framing : framings.Framing) (framed : Bool) (input more : List ℕ) → is_bad (read (start_of framing framed) input).coding ≡ true
        → LacksBody framing (input ++ more) }
    ensures early { (framing : framings.Framing) (framed : Bool) (input : List ℕ) → framing ≢ Framing.ToEnd
        → is_done (read (start_of framing framed) input).coding ≡ false → LacksBody framing input }
{}

/// After any sequence of feeds the text written is the text of the bytes taken, and a front of the
/// text of the whole input; where the coding is done, the bytes taken are a whole body. How the
/// input was cut doesn't matter.
pub fn runs_of_feeds()
    ensures text { (framing : framings.Framing) (framed : Bool) (steps : List Step) (c : Coding) → Runs (start_of framing framed) steps c
        → IsSent framing framed (all_taken steps) (all_given steps) }
    ensures front { (framing : framings.Framing) (framed : Bool) (steps : List Step) (c : Coding) (more text : List ℕ) → Runs (start_of framing framed) steps c
        → IsSent framing framed (all_taken steps ++ more) text → IsFront (all_given steps) text }
    ensures done { (framing : framings.Framing) (framed : Bool) (steps : List Step) (c : Coding) → Runs (start_of framing framed) steps c
        → is_done c ≡ true → IsBody framing framed (all_taken steps) (all_given steps) }
    ensures bad { (framing : framings.Framing) (framed : Bool) (steps : List Step) (c : Coding) (more : List ℕ) → Runs (start_of framing framed) steps c
        → is_bad c ≡ true → LacksBody framing (all_taken steps ++ more) }
    ensures early { (framing : framings.Framing) (framed : Bool) (steps : List Step) (c : Coding) → framing ≢ Framing.ToEnd
        → Runs (start_of framing framed) steps c
        → is_done c ≡ false → LacksBody framing (all_taken steps) }
    ensures cuts { (old : Coding) (steps others : List Step) (c d : Coding) → Runs old steps c → Runs old others d → all_taken steps ≡ all_taken others
        → (all_given steps ≡ all_given others) × (c ≡ d) }
{}
