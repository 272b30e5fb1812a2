ghost use Rattle.std.specs.Prelude.{◌≡◌, ◌+◌, ◌<◌, ◌≤◌, [], ◌++◌, length, Decides};
ghost use Rattle.keys.specs.Text.{BeginsSlash, KeyText, PrefixText, as_prefix};
ghost use Rattle.keys.specs.StorePrefixes.{prefix_text, prefix_fault, MadePrefix, ParentIs, ParentOf};

use super::{MAX_PREFIX_LEN, StorePrefix, StorePrefixError};
use crate::short_text::ShortText;
use crate::text::{keeps_prefix_rule, parent_text};

impl StorePrefixError {
    /// The number of this refusal.
    pub fn number(&self) -> u8
        ensures { result ≡ prefix_fault self.now }
    {
        match self {
            StorePrefixError::TooLong => 3,
            StorePrefixError::Invalid => 2,
        }
    }
}

impl StorePrefix {
    /// The most bytes that a prefix has.
    pub const MAX_PREFIX_LEN: usize = MAX_PREFIX_LEN;

    /// The root prefix: no bytes.
    pub fn root() -> Self
        ensures { prefix_text result ≡ [] }
    {
        StorePrefix::joined(&[], &[])
    }

    /// The prefix of these bytes.
    pub fn new(bytes: &[u8]) -> Result<Self, StorePrefixError>
        ensures { MadePrefix bytes.now result }
    {
        if bytes.len() > MAX_PREFIX_LEN {
            return Err(StorePrefixError::TooLong);
        }
        if !StorePrefix::validate(bytes) {
            return Err(StorePrefixError::Invalid);
        }
        Ok(StorePrefix::joined(bytes, &[]))
    }

    /// True if the bytes keep the rule of prefixes, however many they are.
    pub fn validate(bytes: &[u8]) -> bool
        ensures { Decides result (PrefixText bytes.now) }
    {
        keeps_prefix_rule(bytes)
    }

    /// The prefix's bytes.
    pub fn as_bytes(&self) -> &[u8]
        ensures { result.now ≡ prefix_text self.now }
    {
        self.text.as_bytes()
    }

    /// The prefix through the last slash but one, or the root; none for the root.
    pub fn parent(&self) -> Option<Self>
        ensures { ParentOf (prefix_text self.now) result }
    {
        let (_, front) = self.as_bytes().split_last()?;
        Some(StorePrefix::parent_of(front))
    }

    /// The parent of a text that doesn't begin with a slash: the text through its last slash.
    pub(crate) fn parent_of(text: &[u8]) -> Self
        requires { (length text.now ≤ 121) × ((BeginsSlash text.now → ⊥)) }
        ensures { ParentIs text.now result }
    {
        StorePrefix::joined(parent_text(text), &[])
    }

    /// The prefix of a key's bytes: with a slash behind them, but for the root.
    pub(crate) fn of_key(bytes: &[u8]) -> Self
        requires { (length bytes.now ≤ 120) × (KeyText bytes.now) }
        ensures { prefix_text result ≡ as_prefix bytes.now }
    {
        if bytes.is_empty() {
            return StorePrefix::root();
        }
        StorePrefix::joined(bytes, b"/")
    }

    /// The prefix of two parts that together keep the rule, or are empty.
    pub(crate) fn joined(front: &[u8], back: &[u8]) -> Self
        requires { (length front.now + length back.now ≤ 121) × ((0 < length front.now + length back.now → PrefixText (front.now ++ back.now))) }
        ensures { prefix_text result ≡ front.now ++ back.now }
    {
        StorePrefix {
            text: ShortText::of(front, back),
        }
    }
}
