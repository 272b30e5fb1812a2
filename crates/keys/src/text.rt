//! The rules of texts, and where slashes stand in them.
ghost use Rattle.std.specs.Prelude.{Decides};
ghost use Rattle.keys.specs.Text.{Begins, BeginsSlash, EndsSlash, FinalSlash, DoubleSlash, KeyText, PrefixText, Parent};

/// True if the first byte is a slash.
pub(crate) fn begins_with_slash(text: &[u8]) -> bool
    ensures { Decides result (BeginsSlash text.now) }
{
    begins_with(text, b"/")
}

/// True if the last byte is a slash.
pub(crate) fn ends_with_slash(text: &[u8]) -> bool
    ensures { Decides result (EndsSlash text.now) }
{
    text.ends_with(b"/")
}

/// True if the last byte, if there is any, is a slash.
pub(crate) fn final_is_slash(text: &[u8]) -> bool
    ensures { Decides result (FinalSlash text.now) }
{
    text.is_empty() || ends_with_slash(text)
}

/// True if `text` begins with `front`.
pub(crate) fn begins_with(text: &[u8], front: &[u8]) -> bool
    ensures { Decides result (Begins text.now front.now) }
{
    text.starts_with(front)
}

/// True if two slashes stand side by side.
pub(crate) fn has_double_slash(text: &[u8]) -> bool
    ensures { Decides result (DoubleSlash text.now) }
{
    for pair in text.windows(2) {
        if pair[0] == b'/' && pair[1] == b'/' {
            return true;
        }
    }
    false
}

/// True if a text keeps the rule of keys.
pub(crate) fn keeps_key_rule(text: &[u8]) -> bool
    ensures { Decides result (KeyText text.now) }
{
    !begins_with_slash(text) && !ends_with_slash(text) && !has_double_slash(text)
}

/// True if a text keeps the rule of prefixes.
pub(crate) fn keeps_prefix_rule(text: &[u8]) -> bool
    ensures { Decides result (PrefixText text.now) }
{
    !begins_with_slash(text) && final_is_slash(text)
}

/// A text through its last slash; no bytes where it has none.
pub(crate) fn parent_text(text: &[u8]) -> &[u8]
    ensures { Parent text.now result.now }
{
    match text.iter().rposition(|b| *b == b'/') {
        Some(i) => &text[..i + 1],
        None => &text[..0],
    }
}
