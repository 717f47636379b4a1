ghost use Rattle.std.specs.Prelude.{◌≡◌, ◌==◌, drop};
ghost use Rattle.std.specs.List.{list_any};
ghost use Rattle.exchange_machine.specs.Changes.{looks_again};

use req_view::HEAD_BYTES;
/// Says whether a line ends in the bytes.
pub(crate) fn has_feed(bytes: &[u8]) -> bool
    ensures { result ≡ list_any (λ byte. byte == 10) bytes.now }
{
    bytes.iter().any(|&byte| byte == b'\n')
}

/// Removes the first bytes, or all where there are fewer. `O(n)`.
pub fn forget(held: &mut Vec<u8>, count: usize)
    ensures { held.new.items ≡ drop count held.old.items }
{
    let len = held.len();
    if count >= len {
        held.clear();
        return;
    }
    held.copy_within(count..len, 0);
    held.truncate(len - count);
}

/// Says whether to look for a head in the held bytes, now that these came.
pub(crate) fn looks_again(looks: bool, came: &[u8], held: usize) -> bool
    ensures { result ≡ looks_again looks came.now held }
{
    looks || has_feed(came) || held >= HEAD_BYTES
}
