ghost use Rattle.std.specs.Prelude.{◌≡◌, ◌++◌, OnOk, string_bytes, encode_utf8};
ghost use Rattle.view_drawing.specs.Escapes.{escaped};

use std::alloc::AllocError;

/// Appends a text escaped for an attribute or for content of XML: `&`, `<`, `>`, `"` and `'` become entities.
pub fn push_escaped(text: &mut String, raw: &str) -> Result<(), AllocError>
    ensures { OnOk result (string_bytes text.new ≡ string_bytes text.old ++ escaped raw.now) }
{
    for sign in raw.chars() {
        push_sign(text, sign)?;
    }
    Ok(())
}

#[tactic(auto, using(crate::proofs::Escaped::sign_stays), unfolding(crate::specs::Escapes::escaped))]
fn push_sign(text: &mut String, sign: char) -> Result<(), AllocError>
    ensures { OnOk result (string_bytes text.new ≡ string_bytes text.old ++ escaped (encode_utf8 sign)) }
{
    match sign {
        '&' => text.push_str("&amp;"),
        '<' => text.push_str("&lt;"),
        '>' => text.push_str("&gt;"),
        '"' => text.push_str("&quot;"),
        '\'' => text.push_str("&#39;"),
        _ => text.push(sign),
    }
}
