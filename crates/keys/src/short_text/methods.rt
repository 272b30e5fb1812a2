ghost use Rattle.std.specs.Prelude.{◌≡◌, ◌+◌, ◌≤◌, ◌++◌, length};

use super::ShortText;
use crate::buffer::lay;

impl<const N: usize> ShortText<N> {
    /// The text of two parts.
    pub(crate) fn of(front: &[u8], back: &[u8]) -> Self
        requires { length front.now + length back.now ≤ N }
        ensures { result ≡ front.now ++ back.now }
    {
        let mut bytes = [0; N];
        lay(&mut bytes, front, back);
        ShortText {
            bytes,
            len: front.len() + back.len(),
        }
    }

    /// The text's bytes.
    pub(crate) fn as_bytes(&self) -> &[u8]
        ensures text { result.now ≡ self.now }
        ensures within { length self.now ≤ N }
    {
        &self.bytes[..self.len]
    }
}
