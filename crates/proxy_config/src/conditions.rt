//! Conditions as words.

ghost use Rattle.std.specs.Prelude.{◌≡◌, ◌+◌, ◌∷◌, [], length, position, true};
ghost use Rattle.std.specs.Str.{bytes_eq};
ghost use Rattle.proxy_config.specs.Outcomes.{Gives};
ghost use Rattle.proxy_config.specs.Conditions as grammar;

use crate::faults::{FaultCause, LineError};
use crate::names::is_acl_name;
use crate::parts::{Acl, Condition, Guard, Operand, Term};
use crate::pieces::{is, word};
use crate::samples::test_in_braces;
use base_lists::Items;
use proxy_words::Words;
use std::alloc::Global;
use std::mem;

/// Reads a guard, or the end of the line.
#[tactic(auto, unfolding(crate::specs::Conditions::optional_guard))]
pub(crate) fn optional_guard(
    alloc: Global,
    acls: &Items<Acl>,
    mut words: Words,
) -> Result<Option<Guard>, LineError>
    ensures { Gives (λ x. x) result (grammar.optional_guard acls.now words.entry) }
{
    match words.next() {
        None => Ok(None),
        Some(word) => Ok(Some(guard(alloc, acls, word, words)?)),
    }
}

/// Reads `if` or `unless`, and a condition.
#[tactic(auto, unfolding(crate::specs::Conditions::guard_at))]
pub(crate) fn guard(
    alloc: Global,
    acls: &Items<Acl>,
    word: &[u8],
    words: Words,
) -> Result<Guard, LineError>
    ensures { Gives (λ x. x) result (grammar.guard_at acls.now word.now words.entry) }
{
    if is(word, "if") {
        return Ok(Guard::If(condition(alloc, acls, words)?));
    }
    if is(word, "unless") {
        return Ok(Guard::Unless(condition(alloc, acls, words)?));
    }
    Err(FaultCause::Condition.into())
}

fn condition(alloc: Global, acls: &Items<Acl>, words: Words) -> Result<Condition, LineError>
    ensures { Gives (λ x. x) result (grammar.condition acls.now words.entry) }
{
    let alternatives = alternatives(alloc, acls, words)?;
    Ok(Condition { alternatives })
}

fn alternatives(
    alloc: Global,
    acls: &Items<Acl>,
    words: Words,
) -> Result<Items<Items<Term>>, LineError>
    ensures { Gives (λ x. x) result (grammar.alternatives (length words.entry) acls.now true words.entry) }
{
    let mut alternatives = Items::new(alloc);
    let mut terms = Items::new(alloc);
    let mut words = words;
    'terms: while let Some(word) = words.next() {
        if is_or(word) {
            if terms.is_empty() {
                return Err(FaultCause::Condition.into());
            }
            alternatives.push(mem::replace(&mut terms, Items::new(alloc)))?;
            continue;
        }
        let (term, rest) = term(alloc, acls, word, words)?;
        terms.push(term)?;
        words = rest;
    }
    if terms.is_empty() {
        return Err(FaultCause::Words.into());
    }
    alternatives.push(terms)?;
    Ok(alternatives)
}

// Reads a term whose first word was read, and returns the words after it too.
#[tactic(auto, unfolding(crate::specs::Conditions::term_at))]
fn term<'a>(
    alloc: Global,
    acls: &Items<Acl>,
    first: &'a [u8],
    words: Words<'a>,
) -> Result<(Term, Words<'a>), LineError>
    ensures { Gives (λ x. x) result (grammar.term_at acls.now first.now words.entry) }
{
    match first {
        [b'!'] => {
            let (next, words) = word(words)?;
            operand(alloc, acls, true, next, words)
        }
        [b'!', rest @ ..] => operand(alloc, acls, true, rest, words),
        _ => operand(alloc, acls, false, first, words),
    }
}

#[tactic(auto, unfolding(crate::specs::Conditions::operand_at))]
fn operand<'a>(
    alloc: Global,
    acls: &Items<Acl>,
    negated: bool,
    word: &[u8],
    words: Words<'a>,
) -> Result<(Term, Words<'a>), LineError>
    ensures { Gives (λ x. x) result (grammar.operand_at acls.now negated word.now words.entry) }
{
    if is(word, "{") {
        let (test, words) = test_in_braces(alloc, words)?;
        let operand = Operand::Test(test);
        return Ok((Term { negated, operand }, words));
    }
    if !is_acl_name(word) {
        return Err(FaultCause::Condition.into());
    }
    let index = acl_index(word, acls).ok_or(FaultCause::Unknown)?;
    let operand = Operand::Acl(index);
    Ok((Term { negated, operand }, words))
}

pub(crate) fn acl_index(name: &[u8], acls: &Items<Acl>) -> Option<usize>
    ensures { result ≡ grammar.acl_index name.now acls.now }
{
    acls.as_slice().iter().position(|acl| is_named(name, acl))
}

fn is_named(name: &[u8], acl: &Acl) -> bool
    ensures { result ≡ bytes_eq acl.now.name name.now }
{
    acl.name.as_slice() == name
}

fn is_or(word: &[u8]) -> bool
    ensures { result ≡ grammar.is_or word.now }
{
    is(word, "or") || is(word, "||")
}
