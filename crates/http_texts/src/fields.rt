ghost use Rattle.std.specs.Prelude.{◌≡◌, Some, Bool, ◌&&◌, codes, slice_get, List, ℕ};
ghost use Rattle.std.specs.List.{list_any};
ghost use Rattle.proxy_words.specs.Parts.{parts};
ghost use Rattle.http_texts.specs.Fields as fields;
ghost use Rattle.req_view.specs.Request.{is_named};

use proxy_words::Parts;
use req_view::{Section, Values};

/// The direction of a message.
#[derive(Clone, Copy)]
pub(crate) enum Way {
    ToServer,
    ToClient,
}

/// Says whether a field with this name is handed on. `O(n)` in Connection's values.
pub(crate) fn is_kept(section: &Section, way: Way, name: &[u8]) -> bool
    ensures { result ≡ fields.is_kept (fields.dropped way) section.now.fields name.now }
{
    !(is_of_this_connection(section, name) || is_dropped(way, name))
}

/// Says whether a Host field is handed on to the server.
pub(crate) fn keeps_host(section: &Section) -> bool
    ensures { result ≡ list_any (is_named (codes "Host")) (fields.kept fields.of_request section.now.fields) }
{
    'fields: for position in 0..section.count() {
        if is_kept_host(section, position) {
            return true;
        }
    }
    false
}

fn is_kept_host(section: &Section, position: usize) -> bool
    ensures { (name value : List ℕ) → slice_get section.now.fields position ≡ Some (name, value)
        → result ≡ (fields.is_kept fields.of_request section.now.fields name && is_named (codes "Host") (name, value)) }
{
    let Some(field) = section.field(position) else {
        return false;
    };
    is_kept(section, Way::ToServer, field.name) && field.name.eq_ignore_ascii_case(b"Host")
}

/// Says whether a Connection field names it.
pub(crate) fn is_of_this_connection(section: &Section, name: &[u8]) -> bool
    ensures { result ≡ fields.is_among (fields.parts_of (codes "Connection") section.now.fields) name.now }
{
    have_part(section.values(b"Connection"), name)
}

fn have_part(mut values: Values<'_>, name: &[u8]) -> bool
    ensures { result ≡ list_any (λ value. fields.is_among (parts value) name.now) values.entry }
{
    values.any(|value| has_part(value, name))
}

fn has_part(value: &[u8], name: &[u8]) -> bool
    ensures { result ≡ fields.is_among (parts value.now) name.now }
{
    Parts::new(value).any(|part| name.eq_ignore_ascii_case(part))
}

fn is_dropped(way: Way, name: &[u8]) -> bool
    ensures { result ≡ fields.is_among (fields.dropped way) name.now }
{
    match way {
        Way::ToServer => is_of_request(name),
        Way::ToClient => is_of_connection(name),
    }
}

fn is_of_request(name: &[u8]) -> bool
    ensures { result ≡ fields.is_among fields.of_request name.now }
{
    name.eq_ignore_ascii_case(b"TE")
        || name.eq_ignore_ascii_case(b"Expect")
        || is_of_connection(name)
}

fn is_of_connection(name: &[u8]) -> bool
    ensures { result ≡ fields.is_among fields.of_connection name.now }
{
    name.eq_ignore_ascii_case(b"Connection")
        || name.eq_ignore_ascii_case(b"Keep-Alive")
        || name.eq_ignore_ascii_case(b"Proxy-Connection")
        || name.eq_ignore_ascii_case(b"Upgrade")
        || name.eq_ignore_ascii_case(b"Trailer")
        || name.eq_ignore_ascii_case(b"Transfer-Encoding")
        || name.eq_ignore_ascii_case(b"Content-Length")
}
