ghost use Rattle.std.specs.Prelude.{◌≡◌, ◌++◌, ℕ, List, Bool};
ghost use Rattle.base_lists.specs.Fronts.{AreComparable};
ghost use Rattle.http_texts.specs.Messages.{IsForwarded, PartOfForwarded, IsAnswered, PartOfAnswered};
ghost use Rattle.http_texts.specs.declared.additions.Additions as additions;
ghost use Rattle.http_texts.specs.declared.persistence.Persistence as words;
ghost use Rattle.req_view.specs.Request.{Request};

/// The law of the definitions for requests: of what two parts of one input become one is a front of
/// the other, and a whole message is a part.
pub fn texts_of_a_request_are_comparable()
    ensures parts { (adds : additions.Additions) (r : Request) (used text more_used more_text rest more_rest : List ℕ) → PartOfForwarded adds r used text
        → PartOfForwarded adds r more_used more_text
        → used ++ rest ≡ more_used ++ more_rest → AreComparable text more_text }
    ensures whole { (adds : additions.Additions) (r : Request) (used text : List ℕ) → IsForwarded adds r used text → PartOfForwarded adds r used text }
{}

/// The same for answers to a request with one method, to a client of one version.
pub fn texts_of_an_answer_are_comparable()
    ensures parts { (says : words.Persistence) (method : List ℕ) (framed : Bool) (used text more_used more_text rest more_rest : List ℕ)
        → PartOfAnswered says method framed used text
        → PartOfAnswered says method framed more_used more_text → used ++ rest ≡ more_used ++ more_rest → AreComparable text more_text }
    ensures whole { (says : words.Persistence) (method : List ℕ) (framed : Bool) (used text : List ℕ) → IsAnswered says method framed used text
        → PartOfAnswered says method framed used text }
{}
