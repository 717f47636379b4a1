//! The tests of a configuration, applied to a request.

ghost use Rattle.std.specs.Prelude.{◌≡◌, ◌==◌};
ghost use Rattle.std.specs.List.{list_any, ends_with};
ghost use Rattle.std.specs.Str.{bytes_eq};
ghost use Rattle.proxy_words.specs.Parts.{parts};
ghost use Rattle.req_view.specs.Request.{values_of};
ghost use Rattle.req_view.specs.Target.{begins as text_begins};
ghost use Rattle.prio_rules.specs.Truth as truth;

use proxy_config::{Acl, Subject, Test};
use proxy_words::Parts;
use req_view::View;

pub(crate) fn acl_holds(view: &View, acl: &Acl) -> bool
    ensures { result ≡ truth.acl_holds view.now acl.now }
{
    acl.tests
        .as_slice()
        .iter()
        .any(|test| test_holds(view, test))
}

pub(crate) fn test_holds(view: &View, test: &Test) -> bool
    ensures { result ≡ truth.test_holds view.now test.now }
{
    match &test.subject {
        Subject::Path | Subject::PathBegin | Subject::PathEnd => match view.path() {
            None => false,
            Some(path) => one_fits(test, path),
        },
        Subject::Method => one_fits(test, view.method()),
        Subject::Header(name) => one_value_fits(view, name.as_slice(), test),
    }
}

fn one_value_fits(view: &View, name: &[u8], test: &Test) -> bool
    ensures { result ≡ list_any (λ value. list_any (truth.one_fits test.now) (parts value)) (values_of name.now view.now.fields) }
{
    view.values(name).any(|value| one_part_fits(test, value))
}

fn one_part_fits(test: &Test, value: &[u8]) -> bool
    ensures { result ≡ list_any (truth.one_fits test.now) (parts value.now) }
{
    Parts::new(value).any(|part| one_fits(test, part))
}

fn one_fits(test: &Test, text: &[u8]) -> bool
    ensures { result ≡ truth.one_fits test.now text.now }
{
    test.values
        .as_slice()
        .iter()
        .any(|value| fits(test, text, value.as_slice()))
}

fn fits(test: &Test, text: &[u8], value: &[u8]) -> bool
    ensures { result ≡ truth.fits test.now.subject (truth.folded test.now.ignore_case text.now) (truth.folded test.now.ignore_case value.now) }
{
    match &test.subject {
        Subject::PathBegin => begins(test.ignore_case, text, value),
        Subject::PathEnd => ends(test.ignore_case, text, value),
        Subject::Path | Subject::Method | Subject::Header(_) => {
            is(test.ignore_case, text, value)
        }
    }
}

fn is(ignore_case: bool, a: &[u8], b: &[u8]) -> bool
    ensures { result ≡ bytes_eq (truth.folded ignore_case a.now) (truth.folded ignore_case b.now) }
{
    if ignore_case {
        a.eq_ignore_ascii_case(b)
    } else {
        a == b
    }
}

fn begins(ignore_case: bool, text: &[u8], value: &[u8]) -> bool
    ensures { result ≡ text_begins (truth.folded ignore_case value.now) (truth.folded ignore_case text.now) }
{
    if text.len() < value.len() {
        return false;
    }
    let (front, _) = text.split_at(value.len());
    is(ignore_case, value, front)
}

fn ends(ignore_case: bool, text: &[u8], value: &[u8]) -> bool
    ensures { result ≡ ends_with (λ a b. a == b) (truth.folded ignore_case text.now) (truth.folded ignore_case value.now) }
{
    if text.len() < value.len() {
        return false;
    }
    let (_, end) = text.split_at(text.len() - value.len());
    is(ignore_case, value, end)
}
