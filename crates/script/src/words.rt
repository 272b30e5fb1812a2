//! The words of a line.
ghost use Rattle.std.specs.Prelude.{◌≡◌};
ghost use Rattle.script.specs.Words.{blank, trimmed_front, trimmed, first_word, behind_word};

/// True for a space, a tab and a carriage return.
fn is_blank(b: u8) -> bool
    ensures { result ≡ blank b }
{
    matches!(b, b' ' | b'\t' | b'\r')
}

/// The bytes less the blanks at the front.
fn trim_start(text: &[u8]) -> &[u8]
    ensures { result.now ≡ trimmed_front text.now }
{
    let start = text
        .iter()
        .position(|b| !is_blank(*b))
        .unwrap_or(text.len());
    &text[start..]
}

/// The bytes less the blanks at both ends.
pub(crate) fn trim(text: &[u8]) -> &[u8]
    ensures { result.now ≡ trimmed text.now }
{
    let text = trim_start(text);
    let blanks = text
        .iter()
        .rev()
        .position(|b| !is_blank(*b))
        .unwrap_or(text.len());
    &text[..text.len() - blanks]
}

/// The first word, and what stands behind it.
pub(crate) fn next_word(text: &[u8]) -> (&[u8], &[u8])
    ensures { (result.0.now ≡ first_word text.now) × (result.1.now ≡ behind_word text.now) }
{
    let text = trim_start(text);
    let end = text.iter().position(|b| is_blank(*b)).unwrap_or(text.len());
    text.split_at(end)
}
