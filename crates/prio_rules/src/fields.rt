//! The values of a field: the comma-separated parts of each field with its name.

ghost use Rattle.std.specs.Prelude.{◌≡◌, None};
ghost use Rattle.std.specs.List.{last_or};
ghost use Rattle.std.specs.Option.{option_copied};
ghost use Rattle.proxy_words.specs.Parts.{parts};
ghost use Rattle.prio_rules.specs.Wishes as rules;

use proxy_words::Parts;
use req_view::View;

/// Returns the last value of a field. `O(n)` in the bytes of the fields with that name.
pub(crate) fn last_value<'v>(view: &'v View, name: &[u8]) -> Option<&'v [u8]>
    ensures { option_copied result ≡ rules.last_value name.now view.now }
{
    let mut last = None;
    let mut values = view.values(name);
    'values: while let Some(value) = values.next() {
        last = last_part(value, last);
    }
    last
}

// Returns the last part of a value, or else the one before it.
fn last_part<'v>(value: &'v [u8], before: Option<&'v [u8]>) -> Option<&'v [u8]>
    ensures { option_copied result ≡ last_or (option_copied before.entry) (parts value.now) }
{
    let mut last = before;
    let mut parts = Parts::new(value);
    'parts: while let Some(part) = parts.next() {
        last = Some(part);
    }
    last
}
