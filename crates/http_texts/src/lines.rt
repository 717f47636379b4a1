ghost use Rattle.std.specs.Prelude.{◌≡◌, ◌+◌, ◌^◌, ◌<◌, ◌++◌, ◌∷◌, [], ℕ, List, Some, slice_get, OnOk, IfErr};
ghost use Rattle.httparse.specs.Ascii.{space};
ghost use Rattle.http_texts.specs.Emissions.{Puts, Halts};
ghost use Rattle.http_texts.specs.Fields.{dropped, kept};
ghost use Rattle.http_texts.specs.Lines.{kept_line};
ghost use Rattle.http_texts.specs.Texts as texts;

use crate::fields::{Way, is_kept, keeps_host};
use crate::persistence::{Persistence, connection_text};
use base_streams::Sink;
use http_bodies::{Fault, Framing, Page};
use itoa::Buffer;
use req_view::Section;

/// Appends the text after what waits.
pub(crate) fn put<P: Page, K: Sink>(page: &mut P, sink: &mut K, text: &[u8]) -> Result<(), Fault>
    requires { (K.stream sink.old).calls + (P.pipe page.old).turns < 2 ^ 64 }
    ensures ok { OnOk result (Puts (P.pipe page.old) (P.pipe page.new) (K.stream sink.old) (K.stream sink.new) (text.now)) }
    ensures err { IfErr result (Halts (P.pipe page.old) (P.pipe page.new) (K.stream sink.old) (K.stream sink.new) (text.now)) }
{
    page.put(sink, text)?;
    Ok(())
}

/// Appends three texts, one after the other.
pub(crate) fn put_three<P: Page, K: Sink>(
    page: &mut P,
    sink: &mut K,
    first: &[u8],
    second: &[u8],
    third: &[u8],
) -> Result<(), Fault>
    requires { (K.stream sink.old).calls + (P.pipe page.old).turns < 2 ^ 64 }
    ensures ok { OnOk result (Puts (P.pipe page.old) (P.pipe page.new) (K.stream sink.old) (K.stream sink.new) (first.now ++ (second.now ++ third.now))) }
    ensures err { IfErr result (Halts (P.pipe page.old) (P.pipe page.new) (K.stream sink.old) (K.stream sink.new) (first.now ++ (second.now ++ third.now))) }
{
    put(page, sink, first)?;
    put(page, sink, second)?;
    put(page, sink, third)?;
    Ok(())
}

fn put_field<P: Page, K: Sink>(
    page: &mut P,
    sink: &mut K,
    name: &[u8],
    value: &[u8],
) -> Result<(), Fault>
    requires { (K.stream sink.old).calls + (P.pipe page.old).turns < 2 ^ 64 }
    ensures ok { OnOk result (Puts (P.pipe page.old) (P.pipe page.new) (K.stream sink.old) (K.stream sink.new) (texts.field_text (name.now, value.now))) }
    ensures err { IfErr result (Halts (P.pipe page.old) (P.pipe page.new) (K.stream sink.old) (K.stream sink.new) (texts.field_text (name.now, value.now))) }
{
    put(page, sink, name)?;
    put_three(page, sink, b": ", value, b"\r\n")?;
    Ok(())
}

// Appends the line of the field at a position, if it is handed on.
fn put_kept<P: Page, K: Sink>(
    page: &mut P,
    sink: &mut K,
    section: &Section,
    way: Way,
    position: usize,
) -> Result<(), Fault>
    requires { (K.stream sink.old).calls + (P.pipe page.old).turns < 2 ^ 64 }
    ensures ok { (name value : List ℕ) → slice_get section.now.fields position ≡ Some (name, value)
        → OnOk result (Puts (P.pipe page.old) (P.pipe page.new) (K.stream sink.old) (K.stream sink.new) (kept_line (dropped way) section.now.fields (name, value))) }
    ensures err { (name value : List ℕ) → slice_get section.now.fields position ≡ Some (name, value)
        → IfErr result (Halts (P.pipe page.old) (P.pipe page.new) (K.stream sink.old) (K.stream sink.new) (kept_line (dropped way) section.now.fields (name, value))) }
{
    let Some(field) = section.field(position) else {
        return Ok(());
    };
    if !is_kept(section, way, field.name) {
        return Ok(());
    }
    put_field(page, sink, field.name, field.value)?;
    Ok(())
}

/// Appends the lines of the fields that are handed on. `O(n)` in the fields, times Connection's values.
pub(crate) fn put_fields<P: Page, K: Sink>(
    page: &mut P,
    sink: &mut K,
    section: &Section,
    way: Way,
) -> Result<(), Fault>
    requires { (K.stream sink.old).calls + (P.pipe page.old).turns < 2 ^ 64 }
    ensures ok { OnOk result (Puts (P.pipe page.old) (P.pipe page.new) (K.stream sink.old) (K.stream sink.new) (texts.fields_text (kept (dropped way) section.now.fields))) }
    ensures err { IfErr result (Halts (P.pipe page.old) (P.pipe page.new) (K.stream sink.old) (K.stream sink.new) (texts.fields_text (kept (dropped way) section.now.fields))) }
{
    'fields: for position in 0..section.count() {
        put_kept(page, sink, section, way, position)?;
    }
    Ok(())
}

/// Appends an empty Host line, unless a Host field is handed on.
pub(crate) fn put_host<P: Page, K: Sink>(
    page: &mut P,
    sink: &mut K,
    section: &Section,
) -> Result<(), Fault>
    requires { (K.stream sink.old).calls + (P.pipe page.old).turns < 2 ^ 64 }
    ensures ok { OnOk result (Puts (P.pipe page.old) (P.pipe page.new) (K.stream sink.old) (K.stream sink.new) (texts.host_text (kept
        (dropped Way.ToServer) section.now.fields))) }
    ensures err { IfErr result (Halts (P.pipe page.old) (P.pipe page.new) (K.stream sink.old) (K.stream sink.new) (texts.host_text (kept
        (dropped Way.ToServer) section.now.fields))) }
{
    if keeps_host(section) {
        return Ok(());
    }
    put(page, sink, b"Host:\r\n")?;
    Ok(())
}

fn put_framing<P: Page, K: Sink>(page: &mut P, sink: &mut K, framing: Framing) -> Result<(), Fault>
    requires { (K.stream sink.old).calls + (P.pipe page.old).turns < 2 ^ 64 }
    ensures ok { OnOk result (Puts (P.pipe page.old) (P.pipe page.new) (K.stream sink.old) (K.stream sink.new) (texts.framing_text framing)) }
    ensures err { IfErr result (Halts (P.pipe page.old) (P.pipe page.new) (K.stream sink.old) (K.stream sink.new) (texts.framing_text framing)) }
{
    match framing {
        Framing::Empty | Framing::ToEnd => Ok(()),
        Framing::Length(count) => {
            put_length(page, sink, count)?;
            Ok(())
        }
        Framing::Chunked => {
            put(page, sink, b"Transfer-Encoding: chunked\r\n")?;
            Ok(())
        }
    }
}

fn put_length<P: Page, K: Sink>(page: &mut P, sink: &mut K, count: u64) -> Result<(), Fault>
    requires { (K.stream sink.old).calls + (P.pipe page.old).turns < 2 ^ 64 }
    ensures ok { OnOk result (Puts (P.pipe page.old) (P.pipe page.new) (K.stream sink.old) (K.stream sink.new) (texts.framing_text (Framing.Length count))) }
    ensures err { IfErr result (Halts (P.pipe page.old) (P.pipe page.new) (K.stream sink.old) (K.stream sink.new) (texts.framing_text (Framing.Length count))) }
{
    let mut buffer = Buffer::new();
    let digits = buffer.format(count).as_bytes();
    put_three(page, sink, b"Content-Length: ", digits, b"\r\n")?;
    Ok(())
}

/// Appends the end of a head: its framing, and the Connection line.
pub(crate) fn put_end<P: Page, K: Sink>(
    page: &mut P,
    sink: &mut K,
    framing: Framing,
    persistence: Persistence,
) -> Result<(), Fault>
    requires { (K.stream sink.old).calls + (P.pipe page.old).turns < 2 ^ 64 }
    ensures ok { OnOk result (Puts (P.pipe page.old) (P.pipe page.new) (K.stream sink.old) (K.stream sink.new) (texts.end_text persistence framing)) }
    ensures err { IfErr result (Halts (P.pipe page.old) (P.pipe page.new) (K.stream sink.old) (K.stream sink.new) (texts.end_text persistence framing)) }
{
    put_framing(page, sink, framing)?;
    put(page, sink, connection_text(persistence))?;
    Ok(())
}
