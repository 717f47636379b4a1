ghost use Rattle.std.specs.Prelude.{◌≡◌, ◌↔◌};
ghost use Rattle.std.specs.Cmp.{IsTotalOrder};
ghost use Rattle.std.specs.declared.cmp.Ordering.TheVariants.{Less, Equal};
ghost use Rattle.due_key.specs.declared.key.Key.{Key};
ghost use Rattle.due_key.specs.Order.{key_cmp, ComesBefore};

use crate::class::Class;
use crate::due::Due;

/// The key that orders the requests of a queue: by class, then by due date, then by ticket, lower
/// first. Tickets count the accepted arrivals, so no two requests have the same key.
#[derive(Clone, Copy, Debug, PartialEq, Eq, PartialOrd, Ord)]
pub struct Key {
    pub class: Class,
    pub due: Due,
    pub ticket: u64,
}

/// The law of the order of keys: code with a bound `K: Ord` compares keys by class, due date and
/// ticket, as in a dictionary; this is a total order in which only equal keys tie.
pub fn order_of_keys()
    ensures at_bounds { (a b : Key) → ⟦<Key as Ord>⟧.cmp a b ≡ key_cmp a b }
    ensures dictionary { (a b : Key) → (key_cmp a b ≡ Less) ↔ ComesBefore a b }
    ensures total { IsTotalOrder key_cmp }
    ensures exact { (a b : Key) → key_cmp a b ≡ Equal → a ≡ b }
{}
