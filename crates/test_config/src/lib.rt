//! Tests of words, of the command line, of the configuration, of `check` and `convert`, of the
//! texts about faulty lines and unreadable files, of the heads of requests, and of the rules. They
//! are a crate of their own, so that the crates under test aren't proved a second time with them.
#![tactic(auto)]

#[cfg(test)]
mod advice;
#[cfg(test)]
mod assertions;
#[cfg(test)]
mod commands;
#[cfg(test)]
mod configuration;
#[cfg(test)]
mod conversions;
#[cfg(test)]
mod faulty_lines;
#[cfg(test)]
mod heads;
#[cfg(test)]
mod lines_and_words;
#[cfg(test)]
mod reasons;
#[cfg(test)]
mod rules;
#[cfg(test)]
mod shown;
#[cfg(test)]
mod texts;
#[cfg(test)]
mod unwritten;
