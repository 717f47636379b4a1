//! The dispatcher compared with a plain, slow program: it keeps rows and results in lists, and
//! makes each decision by looking at all of them, as the definitions say. The crate consists of
//! tests alone, so that no crate above the dispatcher proves them again.
#![tactic(auto)]

#[cfg(test)]
mod assertions;
#[cfg(test)]
mod tests;
