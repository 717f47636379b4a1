ghost use Rattle.std.specs.Prelude.{◌≡◌, ◌≤◌, IfOk, Some, None, MatchOption, take, map, length, slice_get};
ghost use Rattle.httparse.specs.Spans.{span_bytes, header_bytes, IsWithin, IsSectionWithin};
ghost use Rattle.req_view.specs.Request.{values_of};
ghost use Rattle.req_view.specs.Spans.{AreNames};

use crate::index;
use crate::values::Values;
use http_header::HeaderMap;
use httparse::spans::{HeaderSpan, Span};
use std::alloc::{AllocError, Global};
use std::marker::Model;

/// A field of a head.
#[derive(Clone, Copy, Debug, PartialEq, Eq)]
pub struct Field<'a> {
    /// The name as it came.
    pub name: &'a [u8],
    /// The value, without the spaces and tabs around it.
    pub value: &'a [u8],
}

/// A copy of a head's bytes, with its fields.
///
/// Names and values are slices of the copy, and a map from names to spans finds values by name.
#[derive(Drop)]
pub struct Section {
    text: Vec<u8>,
    field_spans: Vec<HeaderSpan>,
    by_name: HeaderMap<Span>,
}

impl Model for Section {
    ghost use Rattle.std.specs.Prelude.{◌≡◌, map, length, All};
    ghost use Rattle.httparse.specs.Spans.{header_bytes, IsHeaderWithin};
    ghost use Rattle.req_view.specs.Spans.{Copied, index_of};

    ghost Value = { Copied };

    ghost view = { λ s. record { text = s.text.items; fields = map (header_bytes s.text.items) s.field_spans.items } };

    ghost invariant = { λ s. All (IsHeaderWithin (length s.text.items)) s.field_spans.items × (s.by_name ≡ index_of s.text.items s.field_spans.items) };
}

impl Section {
    /// Copies the first `len` bytes, whose fields the first `count` spans cover. `O(n)`.
    pub(crate) fn copied(
        alloc: Global,
        bytes: &[u8],
        field_spans: &[HeaderSpan],
        len: usize,
        count: usize,
    ) -> Result<Section, AllocError>
        requires within { IsSectionWithin bytes.now field_spans.now len count }
        requires names { AreNames bytes.now (take count field_spans.now) }
        requires few { count ≤ 64 }
        ensures { IfOk result (λ section. section ≡ record { text = take len bytes.now; fields = map (header_bytes bytes.now) (take count field_spans.now) }) }
    {
        let text = Vec::from_slice(alloc, &bytes[..len])?;
        let field_spans = Vec::from_slice(alloc, &field_spans[..count])?;
        let by_name = index::by_name(alloc, &text, &field_spans)?;
        Ok(Section {
            text,
            field_spans,
            by_name,
        })
    }

    /// Returns the bytes that a span covers.
    pub(crate) fn part(&self, span: Span) -> &[u8]
        requires { IsWithin (length self.now.text) span }
        ensures { result.now ≡ span_bytes self.now.text span }
    {
        span.of(&self.text)
    }

    /// Returns the number of fields: at most 64.
    pub fn count(&self) -> usize
        ensures { result ≡ length self.now.fields }
    {
        self.field_spans.len()
    }

    /// Returns the field at a position, counted from 0. `O(1)`.
    pub fn field(&self, position: usize) -> Option<Field<'_>>
        ensures { MatchOption result (slice_get self.now.fields position ≡ None) (λ field. slice_get self.now.fields position ≡ Some (field.name.now, field.value.now)) }
    {
        let span = self.field_spans.get(position)?;
        Some(Field {
            name: span.name.of(&self.text),
            value: span.value.of(&self.text),
        })
    }

    /// Returns the values of the fields with a name, ignoring case, in order. `O(n)` in the name's
    /// bytes, without allocating.
    pub fn values(&self, name: &[u8]) -> Values<'_>
        ensures { result ≡ values_of name.now self.now.fields }
    {
        Values::new(&self.text, self.by_name.get_all(name).iter())
    }
}
