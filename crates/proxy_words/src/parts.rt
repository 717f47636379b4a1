ghost use Rattle.std.specs.Prelude.{◌≡◌, ◌∷◌, position, reverse};
ghost use Rattle.std.specs.Iterator.{YieldsFirstRef, item_count};
ghost use Rattle.std.specs.Option.{option_copied};
ghost use Rattle.proxy_words.specs.Parts.{parts, parts_left, is_comma, after_blanks, trimmed};

use std::marker::Model;

/// The comma-separated parts of a text, first to last, without the spaces and tabs at the ends of each.
///
/// An empty text has one part, which is empty. All parts together cost `O(n)`.
#[derive(Drop)]
pub struct Parts<'a> {
    // `None` after the last part.
    rest: Option<&'a [u8]>,
}

impl<'a> Model for Parts<'a> {
    ghost use Rattle.std.specs.Prelude.{ℕ, List};
    ghost use Rattle.std.specs.Option.{option_copied};
    ghost use Rattle.proxy_words.specs.Parts.{parts_left};

    ghost Value = { List (List ℕ) };

    ghost view = { λ s. parts_left (option_copied s.rest) };
}

impl<'a> Parts<'a> {
    pub fn new(text: &'a [u8]) -> Self
        ensures { result ≡ parts text.now }
    {
        Parts { rest: Some(text) }
    }
}

impl<'a> Iterator for Parts<'a> {
    type Item = &'a [u8];

    ghost next_gives = { YieldsFirstRef (λ left. left) };

    ghost remaining = { item_count (λ left. left) };

    fn next(&mut self) -> Option<&'a [u8]> {
        let (part, after) = first_part(self.rest?);
        self.rest = after;
        Some(part)
    }
}

// Returns the first part, and the text after its comma, if there is one.
fn first_part(text: &[u8]) -> (&[u8], Option<&[u8]>)
    ensures { parts text.now ≡ result.0.now ∷ parts_left (option_copied result.1) }
{
    match comma(text) {
        None => (trim(text), None),
        Some(end) => {
            let (part, _) = text.split_at(end);
            let (_, after) = text.split_at(end + 1);
            (trim(part), Some(after))
        }
    }
}

fn comma(text: &[u8]) -> Option<usize>
    ensures { result ≡ position is_comma text.now }
{
    text.iter().position(|byte| *byte == b',')
}

fn trim(text: &[u8]) -> &[u8]
    ensures { result.now ≡ trimmed text.now }
{
    trim_end(trim_start(text))
}

fn trim_start(text: &[u8]) -> &[u8]
    ensures { result.now ≡ after_blanks text.now }
{
    let mut rest = text;
    while let [b' ' | b'\t', after @ ..] = rest {
        rest = after;
    }
    rest
}

fn trim_end(text: &[u8]) -> &[u8]
    ensures { result.now ≡ reverse (after_blanks (reverse text.now)) }
{
    let mut rest = text;
    while let [front @ .., b' ' | b'\t'] = rest {
        rest = front;
    }
    rest
}
