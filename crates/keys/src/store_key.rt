ghost use Rattle.std.specs.Prelude.{◌≤◌, length};
ghost use Rattle.keys.specs.Text.{KeyText};

use crate::short_text::ShortText;

mod methods;
pub mod orders;
mod prefixes;

/// The most bytes that a key has.
pub const MAX_KEY_LEN: usize = 120;

/// A Zarr abstract store key: at most 120 bytes that keep the rule `KeyText`. Keys are in the order of their texts.
#[derive(Clone, Copy, PartialOrd, Ord)]
pub struct StoreKey {
    text: ShortText<120>,
    ghost within: { length text ≤ 120 },
    ghost rule: { KeyText text },
}

/// Why bytes are no key.
#[derive(Clone, Copy, PartialEq, Eq, Debug)]
pub enum StoreKeyError {
    /// More than 120 bytes.
    TooLong,
    /// The rule of keys is broken.
    Invalid,
}
