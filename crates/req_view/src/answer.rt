ghost use Rattle.std.specs.Prelude.{◌≡◌, ◌≤◌, ◌<◌, IfOk, Some, None, MatchOption, take, length, slice_get};
ghost use Rattle.httparse.specs.Spans.{IsResponseWithin};
ghost use Rattle.req_view.specs.Request.{values_of};
ghost use Rattle.req_view.specs.Spans.{answer_at, AreNames};

use crate::section::{Field, Section};
use crate::values::Values;
use crate::version::Version;
use httparse::spans::{HeaderSpan, ResponseSpans, Span};
use std::alloc::{AllocError, Global};
use std::marker::Model;

/// An answer's head.
///
/// It owns one copy of the head's bytes, of which its parts are slices.
#[derive(Drop)]
pub struct AnswerHead {
    section: Section,
    status: u16,
    reason: Span,
    version: Version,
}

impl Model for AnswerHead {
    ghost use Rattle.std.specs.Prelude.{◌<◌, length};
    ghost use Rattle.httparse.specs.Spans.{span_bytes, IsWithin};
    ghost use Rattle.req_view.specs.Answer.{Answer};

    ghost Value = { Answer };

    ghost view = { λ a. record { status = a.status; reason = span_bytes a.section.text a.reason; version = a.version; fields = a.section.fields } };

    ghost invariant = { λ a. IsWithin (length a.section.text) a.reason × (a.status < 1000) };
}

impl AnswerHead {
    /// Copies the head that the spans cover. `O(n)`.
    pub(crate) fn copied(
        alloc: Global,
        bytes: &[u8],
        field_spans: &[HeaderSpan],
        spans: ResponseSpans,
    ) -> Result<AnswerHead, AllocError>
        requires within { IsResponseWithin bytes.now field_spans.now spans }
        requires names { AreNames bytes.now (take spans.headers field_spans.now) }
        requires few { spans.headers ≤ 64 }
        ensures { IfOk result (λ head. head ≡ answer_at bytes.now field_spans.now spans) }
    {
        let section = Section::copied(alloc, bytes, field_spans, spans.len, spans.headers)?;
        Ok(AnswerHead {
            section,
            status: spans.code,
            reason: spans.reason,
            version: Version::of_minor(spans.version),
        })
    }

    /// Returns the status code.
    pub fn status(&self) -> u16
        ensures value { result ≡ self.now.status }
        ensures three_digits { result < 1000 }
    {
        self.status
    }

    /// Returns the reason phrase as it came; empty where there is none.
    pub fn reason(&self) -> &[u8]
        ensures { result.now ≡ self.now.reason }
    {
        self.section.part(self.reason)
    }

    pub fn version(&self) -> Version
        ensures { result ≡ self.now.version }
    {
        self.version
    }

    /// Returns the fields, for code that handles both kinds of heads.
    pub fn section(&self) -> &Section
        ensures { result.now.fields ≡ self.now.fields }
    {
        &self.section
    }

    /// Returns the number of fields: at most 64.
    pub fn field_count(&self) -> usize
        ensures { result ≡ length self.now.fields }
    {
        self.section.count()
    }

    /// Returns the field at a position, counted from 0. `O(1)`.
    pub fn field(&self, position: usize) -> Option<Field<'_>>
        ensures { MatchOption result (slice_get self.now.fields position ≡ None) (λ field. slice_get self.now.fields position ≡ Some (field.name.now, field.value.now)) }
    {
        self.section.field(position)
    }

    /// Returns the values of the fields with a name, ignoring case, in order. `O(n)` in the name's
    /// bytes, without allocating.
    pub fn values(&self, name: &[u8]) -> Values<'_>
        ensures { result ≡ values_of name.now self.now.fields }
    {
        self.section.values(name)
    }
}
