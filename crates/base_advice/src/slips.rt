//! The known word that is nearest to an unknown one.

ghost use Rattle.std.specs.Prelude.{◌≡◌, ◌≤◌, ◌<◌, ◌*◌, ◌↔◌, IfOk, IfSome, IfNone, ℕ, IsTrue, All, Any, length};
ghost use Rattle.base_advice.specs.Slips.{IsSlip, edits_between};

use std::alloc::{AllocError, Global};
use strsim::levenshtein;

/// The most edits that count as a slip.
const MOST_EDITS: usize = 2;

/// Returns a known word that this one may be a slip of, with the fewest edits; the first of
/// several. `None` where it isn't a slip of any known word.
pub fn nearest(
    alloc: Global,
    word: &str,
    known: &[&'static str],
) -> Result<Option<&'static str>, AllocError>
    ensures slip { IfOk result (λ found. IfSome found (λ name. IsSlip word.now name.now)) }
    ensures known { IfOk result (λ found. IfSome found (λ name. Any (λ other. other.now ≡ name.now) known.now)) }
    ensures fewest { IfOk result (λ found. IfSome found (λ name.
        All (λ other. IsSlip word.now other.now → edits_between word.now name.now ≤ edits_between word.now other.now) known.now)) }
    ensures none { IfOk result (λ found. IfNone found (All (λ other. ¬ IsSlip word.now other.now) known.now)) }
{
    let mut fewest = MOST_EDITS + 1;
    let mut found = None;
    for name in known {
        let edits = levenshtein(alloc, word, name)?;
        if is_nearer(edits, fewest, name) {
            fewest = edits;
            found = Some(*name);
        }
    }
    Ok(found)
}

// Says whether a word is near enough to be meant, and nearer than the one before.
fn is_nearer(edits: usize, fewest: usize, name: &str) -> bool
    ensures { IsTrue result ↔ (edits < fewest × edits * 2 < length name.now) }
{
    edits < fewest && edits < name.len().div_ceil(2)
}
