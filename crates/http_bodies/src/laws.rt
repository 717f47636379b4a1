ghost use Rattle.std.specs.Prelude.{◌≡◌, ◌++◌, ℕ, List, Bool};
ghost use Rattle.http_bodies.specs.Framings.{PartOfBody};
ghost use Rattle.base_lists.specs.Fronts.{AreComparable};

use crate::framing::Framing;

/// The law of the definitions: of the texts of two parts of a body at the front of one input, one
/// is a front of the other.
pub fn texts_of_parts_are_comparable()
    ensures { (framing : Framing) (framed : Bool) (used text more_used more_text rest more_rest : List ℕ) → PartOfBody framing framed used text
        → PartOfBody framing framed more_used more_text → used ++ rest ≡ more_used ++ more_rest → AreComparable text more_text }
{}
