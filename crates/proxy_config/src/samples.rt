//! Tests and expressions as words.

ghost use Rattle.std.specs.Prelude.{◌≡◌, ◌∷◌, [], Ok};
ghost use Rattle.std.specs.Option.{ok_or, option_copied};
ghost use Rattle.proxy_config.specs.Outcomes.{Gives};
ghost use Rattle.proxy_config.specs.Samples as grammar;
ghost use Rattle.proxy_config.specs.declared.faults.FaultCause.TheVariants as causes;

use crate::faults::{FaultCause, LineError};
use crate::names::is_token;
use crate::parts::{Expression, Subject, Test, Text};
use crate::pieces::{is, word};
use base_lists::Items;
use proxy_words::{Words, signed_long_number};
use std::alloc::Global;

/// Reads a test that goes to the end of the line.
#[tactic(auto, unfolding(crate::specs::Samples::test_to_end))]
pub(crate) fn test_to_end(alloc: Global, words: Words) -> Result<Test, LineError>
    ensures { Gives (λ x. x) result (grammar.test_to_end words.entry) }
{
    let (subject, ignore_case, first, words) = head(alloc, words)?;
    let first = value(alloc, first)?;
    let values = values_to_end(alloc, only(alloc, first)?, words)?;
    Ok(Test {
        subject,
        ignore_case,
        values,
    })
}

/// Reads a test in braces, after the opening one, and returns the words after the closing one too.
#[tactic(auto, unfolding(crate::specs::Samples::test_in_braces))]
pub(crate) fn test_in_braces(
    alloc: Global,
    words: Words<'_>,
) -> Result<(Test, Words<'_>), LineError>
    ensures { Gives (λ x. x) result (grammar.test_in_braces words.entry) }
{
    let (subject, ignore_case, first, words) = head(alloc, words)?;
    if is(first, "}") {
        return Err(FaultCause::Condition.into());
    }
    let first = value(alloc, first)?;
    let (values, words) = values_to_brace(alloc, only(alloc, first)?, words)?;
    Ok((
        Test {
            subject,
            ignore_case,
            values,
        },
        words,
    ))
}

/// Reads an integer, or the field that has one.
pub(crate) fn expression(alloc: Global, word: &[u8]) -> Result<Expression, LineError>
    ensures { Gives (λ x. x) result (ok_or (grammar.expression_of word.now) causes.Condition) }
{
    if let Some(number) = enclosed("int(", word) {
        let number = signed_long_number(number).ok_or(FaultCause::Condition)?;
        return Ok(Expression::Int(number));
    }
    let name = field_in("req.hdr_val(", word).ok_or(FaultCause::Condition)?;
    Ok(Expression::HeaderValue(Items::copied(alloc, name)?))
}

// Reads the subject of a test, whether it ignores case, and its first value, and returns the words
// after that too.
#[tactic(auto, unfolding(crate::specs::Samples::head_at))]
fn head<'a>(
    alloc: Global,
    words: Words<'a>,
) -> Result<(Subject, bool, &'a [u8], Words<'a>), LineError>
    ensures { Gives (λ x. (x.0, x.1, x.2.now, x.3)) result (grammar.head_at words.entry) }
{
    let (first, words) = word(words)?;
    let subject = subject(alloc, first)?;
    let (second, words) = word(words)?;
    if is(second, "-i") {
        let (third, words) = word(words)?;
        return Ok((subject, true, third, words));
    }
    Ok((subject, false, second, words))
}

fn subject(alloc: Global, word: &[u8]) -> Result<Subject, LineError>
    ensures { Gives (λ x. x) result (ok_or (grammar.subject_of word.now) causes.Condition) }
{
    if is(word, "path") {
        return Ok(Subject::Path);
    }
    if is(word, "path_beg") {
        return Ok(Subject::PathBegin);
    }
    if is(word, "path_end") {
        return Ok(Subject::PathEnd);
    }
    if is(word, "method") {
        return Ok(Subject::Method);
    }
    let name = field_in("hdr(", word).ok_or(FaultCause::Condition)?;
    Ok(Subject::Header(Items::copied(alloc, name)?))
}

// Returns the name of a field between an opening text and a closing parenthesis.
fn field_in<'a>(opening: &str, word: &'a [u8]) -> Option<&'a [u8]>
    ensures { option_copied result ≡ grammar.field_in opening.now word.now }
{
    match enclosed(opening, word) {
        Some(name) if is_token(name) => Some(name),
        _ => None,
    }
}

// Returns the text between an opening text and a closing parenthesis.
fn enclosed<'a>(opening: &str, word: &'a [u8]) -> Option<&'a [u8]>
    ensures { option_copied result ≡ grammar.enclosed opening.now word.now }
{
    match word.strip_prefix(opening.as_bytes()) {
        None => None,
        Some(rest) => before_close(rest),
    }
}

fn before_close(word: &[u8]) -> Option<&[u8]>
    ensures { option_copied result ≡ grammar.before_close word.now }
{
    match word {
        [front @ .., b')'] => Some(front),
        _ => None,
    }
}

fn is_dashed(word: &[u8]) -> bool
    ensures { result ≡ grammar.is_dashed word.now }
{
    matches!(word, [b'-', ..])
}

fn value(alloc: Global, word: &[u8]) -> Result<Text, LineError>
    ensures { Gives (λ x. x) result (grammar.value_of word.now) }
{
    if is_dashed(word) {
        return Err(FaultCause::Condition.into());
    }
    Ok(Items::copied(alloc, word)?)
}

fn only(alloc: Global, value: Text) -> Result<Items<Text>, LineError>
    ensures { Gives (λ x. x) result (Ok (value ∷ [])) }
{
    let mut values = Items::new(alloc);
    values.push(value)?;
    Ok(values)
}

// Returns these values, and those to the end of the line.
fn values_to_end(alloc: Global, start: Items<Text>, words: Words) -> Result<Items<Text>, LineError>
    ensures { Gives (λ x. x) result (grammar.onto start (grammar.values_to_end words.entry)) }
{
    let mut values = start;
    let mut words = words;
    'values: while let Some(word) = words.next() {
        let next = value(alloc, word)?;
        values.push(next)?;
    }
    Ok(values)
}

// Returns these values, those up to the closing brace, and the words after it.
fn values_to_brace<'a>(
    alloc: Global,
    start: Items<Text>,
    words: Words<'a>,
) -> Result<(Items<Text>, Words<'a>), LineError>
    ensures { Gives (λ x. x) result (grammar.onto_values start (grammar.values_to_brace words.entry)) }
{
    let mut values = start;
    let mut words = words;
    'values: while let Some(word) = words.next() {
        if is(word, "}") {
            return Ok((values, words));
        }
        let next = value(alloc, word)?;
        values.push(next)?;
    }
    Err(FaultCause::Words.into())
}
