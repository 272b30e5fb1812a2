ghost use Rattle.std.specs.Prelude.{◌≤◌, length};
ghost use Rattle.keys.specs.Text.{PrefixText};

use crate::short_text::ShortText;

mod methods;
pub mod orders;

/// The most bytes that a prefix has.
pub const MAX_PREFIX_LEN: usize = 121;

/// A Zarr abstract store prefix: at most 121 bytes that keep the rule `PrefixText`. Prefixes are in the order of their texts.
#[derive(Clone, Copy, PartialOrd, Ord)]
pub struct StorePrefix {
    text: ShortText<121>,
    ghost within: { length text ≤ 121 },
    ghost rule: { PrefixText text },
}

/// Why bytes are no prefix.
#[derive(Clone, Copy, PartialEq, Eq, Debug)]
pub enum StorePrefixError {
    /// More than 121 bytes.
    TooLong,
    /// The rule of prefixes is broken.
    Invalid,
}
