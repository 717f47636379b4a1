//! Tests of traces that are read back, of pictures and of stories, with pseudo-random scripts among
//! them. They are a crate of their own, so that the crates under test aren't proved a second time
//! with them.
#![tactic(auto)]

#[cfg(test)]
mod assertions;
#[cfg(test)]
mod closing;
#[cfg(test)]
mod crowd;
#[cfg(test)]
mod drawn_scripts;
#[cfg(test)]
mod overtaking;
#[cfg(test)]
mod samples;
#[cfg(test)]
mod stretches;
#[cfg(test)]
mod texts;
#[cfg(test)]
mod traces;
#[cfg(test)]
mod views;
#[cfg(test)]
mod windows;
