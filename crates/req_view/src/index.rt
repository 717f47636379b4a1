ghost use Rattle.std.specs.Prelude.{◌≡◌, ◌≤◌, length, All, IfOk, OnOk};
ghost use Rattle.http_header.specs.FieldName.{IsFieldName};
ghost use Rattle.http_header.specs.HeaderMap.{append, value_count};
ghost use Rattle.http_header.specs.Token.{lowercase};
ghost use Rattle.httparse.specs.Spans.{IsHeaderWithin};
ghost use Rattle.req_view.specs.Spans.{index_of, AreNames};

use http_header::{HeaderMap, HeaderMapError, HeaderName, HeaderNameError};
use httparse::spans::{HeaderSpan, Span};
use std::alloc::{AllocError, Global};

/// Returns the spans of the values of each name. `O(n)`; a standard name takes no memory of its own.
pub(crate) fn by_name(
    alloc: Global,
    text: &[u8],
    fields: &[HeaderSpan],
) -> Result<HeaderMap<Span>, AllocError>
    requires within { All (IsHeaderWithin (length text.now)) fields.now }
    requires names { AreNames text.now fields.now }
    requires few { length fields.now ≤ 64 }
    ensures { IfOk result (λ index. index ≡ index_of text.now fields.now) }
{
    let mut index = HeaderMap::empty(alloc);
    for field in fields {
        add(alloc, &mut index, field.name.of(text), field.value)?;
    }
    Ok(index)
}

fn add(
    alloc: Global,
    index: &mut HeaderMap<Span>,
    name: &[u8],
    value: Span,
) -> Result<(), AllocError>
    requires named { IsFieldName name.now }
    requires few_values { value_count index.old ≤ 64 }
    requires few_names { length index.old ≤ 64 }
    ensures { OnOk result (index.new ≡ append index.old (lowercase name.now) value) }
{
    let name = match HeaderName::from_bytes(alloc, name) {
        Ok(name) => name,
        Err(HeaderNameError::OutOfMemory) => return Err(AllocError),
        Err(HeaderNameError::Invalid) => unreachable!(),
    };
    match index.append(name, value) {
        Ok(_) => Ok(()),
        Err(HeaderMapError::OutOfMemory) => Err(AllocError),
        Err(HeaderMapError::MaxSizeReached) => unreachable!(),
    }
}
