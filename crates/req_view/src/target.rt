ghost use Rattle.std.specs.Prelude.{◌≡◌, Some, None, MatchOption, position};
ghost use Rattle.req_view.specs.Target.{without_query as text_without_query, from_slash as text_from_slash, has_fragment as text_has_fragment, is_slash, is_question_mark, path_of};

/// Returns the path of a request's target.
pub(crate) fn path(target: &[u8]) -> Option<&[u8]>
    ensures { MatchOption result (path_of target.now ≡ None) (λ path. path_of target.now ≡ Some path.now) }
{
    if target.starts_with(b"/") {
        Some(without_query(target))
    } else if target.starts_with(b"http://") {
        Some(from_slash(without_query(&target[7..])))
    } else if target.starts_with(b"https://") {
        Some(from_slash(without_query(&target[8..])))
    } else {
        None
    }
}

/// Says whether a target has a fragment.
pub(crate) fn has_fragment(target: &[u8]) -> bool
    ensures { result ≡ text_has_fragment target.now }
{
    target.iter().any(|byte| *byte == b'#')
}

fn without_query(text: &[u8]) -> &[u8]
    ensures { result.now ≡ text_without_query text.now }
{
    match query_start(text) {
        None => text,
        Some(start) => &text[..start],
    }
}

fn from_slash(text: &[u8]) -> &[u8]
    ensures { result.now ≡ text_from_slash text.now }
{
    match slash(text) {
        None => &[],
        Some(start) => &text[start..],
    }
}

fn query_start(text: &[u8]) -> Option<usize>
    ensures { result ≡ position is_question_mark text.now }
{
    text.iter().position(|byte| *byte == b'?')
}

fn slash(text: &[u8]) -> Option<usize>
    ensures { result ≡ position is_slash text.now }
{
    text.iter().position(|byte| *byte == b'/')
}
