//! The parts of a line of vectors.
use script::hex::{decode, encode};
use std::alloc::{AllocError, Global};

/// What stands before the first `at`, and what stands behind it.
pub fn cut(text: &[u8], at: u8) -> (&[u8], &[u8]) {
    match text.iter().position(|b| *b == at) {
        Some(i) => (&text[..i], &text[i + 1..]),
        None => (text, &[]),
    }
}

/// The call of a line, and the answer behind ` => `.
pub fn cut_answer(line: &[u8]) -> Option<(&[u8], &[u8])> {
    let end = line.len().checked_sub(2)?;
    let at = line.get(1..end)?.iter().position(|b| *b == b'=')?;
    Some((&line[..at], &line[at + 4..]))
}

/// The bytes that a word stands for: `-` for none, else pairs of hexadecimal digits.
pub fn bytes_of(word: &[u8], heap: Global) -> Result<Vec<u8>, AllocError> {
    match word {
        b"-" => Ok(Vec::new(heap)),
        _ => decode(heap, word),
    }
}

/// The number that decimal digits stand for.
pub fn number_of(word: &[u8]) -> Option<u64> {
    if word.is_empty() {
        return None;
    }
    word.iter().try_fold(0u64, |n, b| {
        let digit = char::from(*b).to_digit(10)?;
        n.checked_mul(10)?.checked_add(u64::from(digit))
    })
}

/// Writes bytes: `-` for none, else pairs of hexadecimal digits.
pub fn write_bytes(out: &mut Vec<u8>, bytes: &[u8]) -> Result<(), AllocError> {
    if bytes.is_empty() {
        out.extend_from_slice(b"-")
    } else {
        encode(bytes, out)
    }
}

/// Bytes as they are written.
pub fn written(bytes: &[u8], heap: Global) -> Result<Vec<u8>, AllocError> {
    let mut out = Vec::new(heap);
    write_bytes(&mut out, bytes)?;
    Ok(out)
}
