//! Facts on lists that several crates need: a list that contracts see as its items, and in
//! `proofs/` lemmas on members, on what holds of each item, on items that are found or pass a test,
//! on lists in which nothing stands twice, on positions and writes, on pushed, reversed and
//! replicated lists, on fronts, windows and permutations, on counts, on sums of weights, on tests
//! of optional items, and on the order of three keys.
#![tactic(auto)]

mod items;

pub use items::Items;
