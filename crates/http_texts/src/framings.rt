ghost use Rattle.std.specs.Prelude.{◌≡◌, ◌^◌, ◌<◌, ℕ, List, [], ◌∷◌, Some, None, IfSome, IfNone, ◌⊎◌};
ghost use Rattle.std.specs.List.{flat_map, list_all};
ghost use Rattle.proxy_words.specs.Numerals.{numeral};
ghost use Rattle.proxy_words.specs.Parts.{parts};
ghost use Rattle.http_texts.specs.Framings as framings;
ghost use Rattle.http_texts.specs.Summaries as summaries;

use http_bodies::Framing;
use proxy_words::{Parts, long_number};
use req_view::{Values, Version, View};

/// The values of Transfer-Encoding, summarized.
#[derive(Clone, Copy)]
pub(crate) enum StatedCoding {
    Absent,
    Chunked,
    Other,
}

/// The parts of Content-Length, summarized.
#[derive(Clone, Copy)]
pub(crate) enum Stated {
    Absent,
    Count(u64),
    Faulty,
}

/// Returns the framing of a request's body; `None` where the head's framing is unsound. `O(n)` in
/// the framing fields' values.
pub fn request_framing(view: &View) -> Option<Framing>
    ensures { result ≡ framings.request_framing view.now }
{
    let coding = stated_coding(view.values(b"Transfer-Encoding"));
    let stated = stated_of(view.values(b"Content-Length"));
    framing_of(view.version(), Framing::Empty, coding, stated)
}

pub(crate) fn framing_of(
    version: Version,
    unstated: Framing,
    coding: StatedCoding,
    stated: Stated,
) -> Option<Framing>
    ensures { result ≡ summaries.framing_of version unstated coding stated }
{
    match (coding, stated) {
        (StatedCoding::Absent, Stated::Absent) => Some(unstated),
        (StatedCoding::Absent, Stated::Count(count)) => Some(Framing::Length(count)),
        (StatedCoding::Chunked, Stated::Absent) => match version {
            Version::Http10 => None,
            Version::Http11 => Some(Framing::Chunked),
        },
        _ => None,
    }
}

pub(crate) fn stated_of(mut values: Values<'_>) -> Stated
    ensures { result ≡ summaries.stated_of (flat_map parts values.entry) }
{
    match values.next() {
        None => Stated::Absent,
        Some(first) => match first_number(first) {
            None => Stated::Faulty,
            Some(count) => {
                if !all_are(count, first) {
                    Stated::Faulty
                } else if rest_are(count, values) {
                    Stated::Count(count)
                } else {
                    Stated::Faulty
                }
            }
        },
    }
}

fn rest_are(count: u64, mut values: Values<'_>) -> bool
    ensures { result ≡ list_all (λ value. list_all (framings.is_number count) (parts value)) values.entry }
{
    values.all(|value| all_are(count, value))
}

pub(crate) fn stated_coding(mut values: Values<'_>) -> StatedCoding
    ensures { result ≡ summaries.stated_coding values.entry }
{
    let Some(first) = values.next() else {
        return StatedCoding::Absent;
    };
    match values.next() {
        Some(_) => StatedCoding::Other,
        None => {
            if first.eq_ignore_ascii_case(b"chunked") {
                StatedCoding::Chunked
            } else {
                StatedCoding::Other
            }
        }
    }
}

// Returns the number that is the first part of a text.
fn first_number(value: &[u8]) -> Option<u64>
    ensures some { IfSome result (λ count. (part : List ℕ) × (more : List (List ℕ)) × (parts value.now ≡ part ∷ more) × (numeral 18 part ≡ Some count)) }
    ensures none { IfNone result ((parts value.now ≡ []) ⊎ ((part : List ℕ) × (more : List (List ℕ)) × (parts value.now ≡ part ∷ more) × (numeral 18 part ≡ None))) }
{
    match Parts::new(value).next() {
        None => None,
        Some(part) => long_number(part),
    }
}

fn all_are(count: u64, value: &[u8]) -> bool
    ensures { result ≡ list_all (framings.is_number count) (parts value.now) }
{
    Parts::new(value).all(|part| is_number(count, part))
}

fn is_number(count: u64, part: &[u8]) -> bool
    ensures { result ≡ framings.is_number count part.now }
{
    long_number(part) == Some(count)
}
