//! Values as a script writes them.
ghost use Rattle.std.specs.Prelude.{◌≡◌, IfOk};
ghost use Rattle.script.specs.Values.{bytes_of, value_said, value_read};

use crate::hex::{decode, is_hex};
use std::alloc::{AllocError, Global};

/// A value as it stands in a line.
#[derive(Clone, Copy)]
pub enum Value<'a> {
    /// The bytes between the quotes.
    Text(&'a [u8]),
    /// Pairs of hexadecimal digits.
    Hex(&'a [u8]),
}

impl Value<'_> {
    /// The bytes of the value.
    pub fn to_bytes(&self, heap: Global) -> Result<Vec<u8>, AllocError>
        ensures { IfOk result (λ v. v.items ≡ bytes_of self.now) }
    {
        match self {
            Value::Text(text) => Vec::from_slice(heap, text),
            Value::Hex(digits) => decode(heap, digits),
        }
    }
}

/// The value that a text without blanks at its ends writes.
pub(crate) fn value_of(text: &[u8]) -> Option<Value<'_>>
    ensures { value_read result ≡ value_said text.now }
{
    match text {
        [b'"', inner @ .., b'"'] => Some(Value::Text(inner)),
        [b'x', digits @ ..] if is_hex(digits) => Some(Value::Hex(digits)),
        _ => None,
    }
}
