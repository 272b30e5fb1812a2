ghost use Rattle.std.specs.Prelude.{◌≡◌, ◌<◌, ◌≤◌, [], ◌++◌, length, Decides};
ghost use Rattle.keys.specs.Text.{KeyText};
ghost use Rattle.keys.specs.StoreKeys.{text, key_fault, MadeKey};

use super::{MAX_KEY_LEN, StoreKey, StoreKeyError};
use crate::short_text::ShortText;
use crate::text::keeps_key_rule;

impl StoreKeyError {
    /// The number of this refusal.
    pub fn number(&self) -> u8
        ensures { result ≡ key_fault self.now }
    {
        match self {
            StoreKeyError::TooLong => 3,
            StoreKeyError::Invalid => 1,
        }
    }
}

impl StoreKey {
    /// The most bytes that a key has.
    pub const MAX_KEY_LEN: usize = MAX_KEY_LEN;

    /// The root key: no bytes.
    pub fn root() -> Self
        ensures { text result ≡ [] }
    {
        StoreKey {
            text: ShortText::of(&[], &[]),
        }
    }

    /// The key of these bytes.
    pub fn new(bytes: &[u8]) -> Result<Self, StoreKeyError>
        ensures { MadeKey bytes.now result }
    {
        if bytes.len() > MAX_KEY_LEN {
            return Err(StoreKeyError::TooLong);
        }
        if !StoreKey::validate(bytes) {
            return Err(StoreKeyError::Invalid);
        }
        Ok(StoreKey {
            text: ShortText::of(bytes, &[]),
        })
    }

    /// True if the bytes keep the rule of keys, however many they are.
    pub fn validate(bytes: &[u8]) -> bool
        ensures { Decides result (KeyText bytes.now) }
    {
        keeps_key_rule(bytes)
    }

    /// The key of this key's bytes with `suffix` behind them.
    pub fn joined(&self, suffix: &[u8]) -> Result<Self, StoreKeyError>
        ensures { MadeKey (text self.now ++ suffix.now) result }
    {
        let room = MAX_KEY_LEN - self.as_bytes().len();
        if suffix.len() > room {
            return Err(StoreKeyError::TooLong);
        }
        let text = ShortText::of(self.as_bytes(), suffix);
        if StoreKey::validate(text.as_bytes()) {
            Ok(StoreKey { text })
        } else {
            Err(StoreKeyError::Invalid)
        }
    }

    /// The key's bytes.
    pub fn as_bytes(&self) -> &[u8]
        ensures { result.now ≡ text self.now }
    {
        self.text.as_bytes()
    }
}
