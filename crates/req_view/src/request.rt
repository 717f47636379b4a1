ghost use Rattle.std.specs.Prelude.{◌≡◌, ◌≤◌, ◌↔◌, IsTrue, IfOk, Some, None, MatchOption, take, length, slice_get};
ghost use Rattle.httparse.specs.Spans.{IsRequestWithin};
ghost use Rattle.req_view.specs.Request.{values_of, IsWelcome};
ghost use Rattle.req_view.specs.Spans.{request_at, AreNames};
ghost use Rattle.req_view.specs.Target.{path_of};

use crate::section::{Field, Section};
use crate::target;
use crate::values::Values;
use crate::version::Version;
use httparse::spans::{HeaderSpan, RequestSpans, Span};
use std::alloc::{AllocError, Global};
use std::marker::Model;

/// A request's head.
///
/// It owns one copy of the head's bytes, of which its parts are slices.
#[derive(Drop)]
pub struct View {
    section: Section,
    method: Span,
    target: Span,
    version: Version,
}

impl Model for View {
    ghost use Rattle.std.specs.Prelude.{length};
    ghost use Rattle.httparse.specs.Spans.{span_bytes, IsWithin};
    ghost use Rattle.req_view.specs.Request.{Request};

    ghost Value = { Request };

    ghost view = { λ v. record { method = span_bytes v.section.text v.method; target = span_bytes v.section.text v.target; version = v.version; fields = v.section.fields } };

    ghost invariant = { λ v. IsWithin (length v.section.text) v.method × IsWithin (length v.section.text) v.target };
}

impl View {
    /// Copies the head that the spans cover. `O(n)`.
    pub(crate) fn copied(
        alloc: Global,
        bytes: &[u8],
        field_spans: &[HeaderSpan],
        spans: RequestSpans,
    ) -> Result<View, AllocError>
        requires within { IsRequestWithin bytes.now field_spans.now spans }
        requires names { AreNames bytes.now (take spans.headers field_spans.now) }
        requires few { spans.headers ≤ 64 }
        ensures { IfOk result (λ view. view ≡ request_at bytes.now field_spans.now spans) }
    {
        let section = Section::copied(alloc, bytes, field_spans, spans.len, spans.headers)?;
        Ok(View {
            section,
            method: spans.method,
            target: spans.path,
            version: Version::of_minor(spans.version),
        })
    }

    pub fn method(&self) -> &[u8]
        ensures { result.now ≡ self.now.method }
    {
        self.section.part(self.method)
    }

    /// Returns the target as it came: a path with its query, an absolute URI, an authority or `*`.
    pub fn target(&self) -> &[u8]
        ensures { result.now ≡ self.now.target }
    {
        self.section.part(self.target)
    }

    /// Returns the path of the target, without its query. `O(n)`.
    ///
    /// It is empty where no slash follows a host, and `None` where the target begins neither with a
    /// slash nor with `http://` or `https://`.
    pub fn path(&self) -> Option<&[u8]>
        ensures { MatchOption result (path_of self.now.target ≡ None) (λ path. path_of self.now.target ≡ Some path.now) }
    {
        target::path(self.target())
    }

    pub fn version(&self) -> Version
        ensures { result ≡ self.now.version }
    {
        self.version
    }

    /// Returns the fields, for code that handles both kinds of heads.
    pub fn section(&self) -> &Section
        ensures { result.now.fields ≡ self.now.fields }
    {
        &self.section
    }

    /// Returns the number of fields: at most 64.
    pub fn field_count(&self) -> usize
        ensures { result ≡ length self.now.fields }
    {
        self.section.count()
    }

    /// Returns the field at a position, counted from 0. `O(1)`.
    pub fn field(&self, position: usize) -> Option<Field<'_>>
        ensures { MatchOption result (slice_get self.now.fields position ≡ None) (λ field. slice_get self.now.fields position ≡ Some (field.name.now, field.value.now)) }
    {
        self.section.field(position)
    }

    /// Returns the values of the fields with a name, ignoring case, in order. `O(n)` in the name's
    /// bytes, without allocating.
    pub fn values(&self, name: &[u8]) -> Values<'_>
        ensures { result ≡ values_of name.now self.now.fields }
    {
        self.section.values(name)
    }

    /// Says whether it names its host as its version demands, its method isn't `CONNECT`, and its
    /// target has no fragment. `O(n)`.
    pub(crate) fn is_welcome(&self) -> bool
        ensures { IsTrue result ↔ IsWelcome self.now }
    {
        let hosts = self.values(b"Host").count();
        let names_host = match self.version {
            Version::Http10 => hosts <= 1,
            Version::Http11 => hosts == 1,
        };
        let wants_tunnel = self.method() == b"CONNECT".as_slice();
        names_host && !wants_tunnel && !target::has_fragment(self.target())
    }
}
