ghost use Rattle.std.specs.Prelude.{◌≡◌, ◌<◌, ◌≤◌, List, [], ◌∷◌, ℕ, length, position, false, slice_index, IfNone, IfSome};
ghost use Rattle.std.specs.Iterator.{YieldsFirstRef, item_count};
ghost use Rattle.std.specs.Str.Lines.{lines, strip_carriage_return};
ghost use Rattle.proxy_words.specs.Text.{is_blank, is_comment_sign, is_line_feed, words, uncommented};

use std::marker::Model;

/// The lines of a text, first to last.
///
/// A line feed ends a line, and a carriage return before it is dropped. The last line may lack its line
/// feed, and then keeps a carriage return. All lines together cost one pass over the bytes.
#[derive(Drop)]
pub struct Lines<'a> {
    rest: &'a [u8],
}

impl<'a> Model for Lines<'a> {
    ghost Value = { List (List ℕ) };

    ghost view = { λ s. lines s.rest.now };
}

impl<'a> Lines<'a> {
    pub fn new(text: &'a [u8]) -> Self
        ensures all { result ≡ lines text.now }
        ensures count { length result ≤ length text.now }
    {
        Lines { rest: text }
    }
}

impl<'a> Iterator for Lines<'a> {
    type Item = &'a [u8];

    ghost next_gives = { YieldsFirstRef (λ left. left) };

    ghost remaining = { item_count (λ left. left) };

    fn next(&mut self) -> Option<&'a [u8]> {
        let (line, rest) = first_line(self.rest)?;
        self.rest = rest;
        Some(line)
    }
}

/// The words of a line, first to last: its parts between spaces and tabs.
///
/// All words together cost one pass over the bytes.
#[derive(Drop)]
pub struct Words<'a> {
    rest: &'a [u8],
}

impl<'a> Model for Words<'a> {
    ghost Value = { List (List ℕ) };

    ghost view = { λ s. words s.rest.now };
}

impl<'a> Words<'a> {
    pub fn new(line: &'a [u8]) -> Self
        ensures { result ≡ words line.now }
    {
        Words { rest: line }
    }
}

impl<'a> Iterator for Words<'a> {
    type Item = &'a [u8];

    ghost next_gives = { YieldsFirstRef (λ left. left) };

    ghost remaining = { item_count (λ left. left) };

    fn next(&mut self) -> Option<&'a [u8]> {
        let (word, rest) = first_word(self.rest)?;
        self.rest = rest;
        Some(word)
    }
}

/// Returns a line up to its first `#`. `O(n)`.
pub fn without_comment(line: &[u8]) -> &[u8]
    ensures { result.now ≡ uncommented line.now }
{
    match comment_start(line) {
        None => line,
        Some(start) => &line[..start],
    }
}

// Returns the first line, and the text after its end.
fn first_line(text: &[u8]) -> Option<(&[u8], &[u8])>
    ensures none { IfNone result (lines text.now ≡ []) }
    ensures some { IfSome result (λ cut. lines text.now ≡ cut.0.now ∷ lines cut.1.now) }
{
    if text.is_empty() {
        return None;
    }
    match line_end(text) {
        None => Some((text, &[])),
        Some(end) => {
            let (line, _) = text.split_at(end);
            let (_, rest) = text.split_at(end + 1);
            Some((without_return(line), rest))
        }
    }
}

fn line_end(text: &[u8]) -> Option<usize>
    ensures { result ≡ position is_line_feed text.now }
{
    text.iter().position(|byte| *byte == b'\n')
}

fn without_return(line: &[u8]) -> &[u8]
    ensures { result.now ≡ strip_carriage_return line.now }
{
    match line {
        [front @ .., b'\r'] => front,
        _ => line,
    }
}

// Returns the first word, and the line after the blank that ends it.
fn first_word(line: &[u8]) -> Option<(&[u8], &[u8])>
    ensures none { IfNone result (words line.now ≡ []) }
    ensures some { IfSome result (λ cut. words line.now ≡ cut.0.now ∷ words cut.1.now) }
{
    let line = skip_blanks(line);
    if line.is_empty() {
        return None;
    }
    match word_end(line) {
        None => Some((line, &[])),
        Some(end) => {
            let (word, _) = line.split_at(end);
            let (_, rest) = line.split_at(end + 1);
            Some((word, rest))
        }
    }
}

fn skip_blanks(line: &[u8]) -> &[u8]
    ensures same { words result.now ≡ words line.now }
    ensures starts { 0 < length result.now → is_blank (slice_index result.now 0) ≡ false }
{
    let mut rest = line;
    while let [b' ' | b'\t', after @ ..] = rest {
        rest = after;
    }
    rest
}

fn word_end(line: &[u8]) -> Option<usize>
    ensures { result ≡ position is_blank line.now }
{
    line.iter().position(|byte| *byte == b' ' || *byte == b'\t')
}

fn comment_start(line: &[u8]) -> Option<usize>
    ensures { result ≡ position is_comment_sign line.now }
{
    line.iter().position(|byte| *byte == b'#')
}
