ghost use Rattle.std.specs.Prelude.{◌≡◌, map, length, All};
ghost use Rattle.std.specs.Iterator.{YieldsFirstRef, item_count};
ghost use Rattle.httparse.specs.Spans.{span_bytes, IsWithin};

use http_header::ValueIter;
use httparse::spans::Span;
use std::marker::Model;

/// The values of the fields of one name, in order. Each costs `O(1)`.
#[derive(Drop)]
pub struct Values<'v> {
    text: &'v [u8],
    spans: ValueIter<'v, Span>,
}

impl<'v> Model for Values<'v> {
    ghost use Rattle.std.specs.Prelude.{ℕ, List, map, length, All};
    ghost use Rattle.httparse.specs.Spans.{span_bytes, IsWithin};

    ghost Value = { List (List ℕ) };

    ghost view = { λ v. map (span_bytes v.text.now) v.spans };

    ghost invariant = { λ v. All (IsWithin (length v.text.now)) v.spans };
}

impl<'v> Values<'v> {
    pub(crate) fn new(text: &'v [u8], spans: ValueIter<'v, Span>) -> Self
        requires { All (IsWithin (length text.now)) spans }
        ensures { result ≡ map (span_bytes text.now) spans.entry }
    {
        Values { text, spans }
    }
}

impl<'v> Iterator for Values<'v> {
    type Item = &'v [u8];

    ghost next_gives = { YieldsFirstRef (λ left. left) };

    ghost remaining = { item_count (λ left. left) };

    fn next(&mut self) -> Option<&'v [u8]> {
        let span = self.spans.next()?;
        Some(span.of(self.text))
    }
}
