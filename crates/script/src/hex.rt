//! Hexadecimal text: two lowercase digits for each byte.
ghost use Rattle.std.specs.Prelude.{◌≡◌, ◌+◌, ◌*◌, ◌<◌, ◌++◌, IfOk, IfSome, OnOk, is_some, unwrap_or};
ghost use Rattle.script.specs.Hex.{is_digit, digit_value, digit_of, is_hex, unhex, hex};

use std::alloc::{AllocError, Global};

/// True for `0` to `9` and `a` to `f`.
fn is_hex_digit(b: u8) -> bool
    ensures { result ≡ is_digit b }
{
    b.is_ascii_digit() || matches!(b, b'a'..=b'f')
}

/// The value of a digit, `0` to `9` or `a` to `f`.
fn digit_value(b: u8) -> Option<u8>
    ensures variant { is_some result ≡ is_digit b }
    ensures value { unwrap_or result 0 ≡ digit_value b }
    ensures bound { IfSome result (λ n. n < 16) }
{
    match b {
        b'0'..=b'9' => Some(b - b'0'),
        b'a'..=b'f' => Some(b - b'a' + 10),
        _ => None,
    }
}

/// The digit of the low four bits.
fn hex_digit(n: u8) -> u8
    ensures { result ≡ digit_of n }
{
    match n % 16 {
        low @ 0..=9 => b'0' + low,
        low => b'a' + (low - 10),
    }
}

/// True if the bytes are pairs of hexadecimal digits.
pub(crate) fn is_hex(text: &[u8]) -> bool
    ensures { result ≡ is_hex text.now }
{
    text.iter().all(|b| is_hex_digit(*b)) && text.len() % 2 == 0
}

/// The byte that two digits stand for; what is no digit counts as 0.
fn pair_value(high: u8, low: u8) -> u8
    ensures { result ≡ digit_value high * 16 + digit_value low }
{
    digit_value(high).unwrap_or(0) * 16 + digit_value(low).unwrap_or(0)
}

/// The bytes that pairs of digits stand for.
pub fn decode(heap: Global, text: &[u8]) -> Result<Vec<u8>, AllocError>
    ensures { IfOk result (λ v. v.items ≡ unhex text.now) }
{
    let mut out = Vec::new(heap);
    for pair in text.chunks_exact(2) {
        out.push(pair_value(pair[0], pair[1]))?;
    }
    Ok(out)
}

/// Writes the bytes as pairs of digits.
pub fn encode(bytes: &[u8], out: &mut Vec<u8>) -> Result<(), AllocError>
    ensures { OnOk result (out.new.items ≡ out.old.items ++ hex bytes.now) }
{
    for b in bytes {
        out.push(hex_digit(*b / 16))?;
        out.push(hex_digit(*b))?;
    }
    Ok(())
}
