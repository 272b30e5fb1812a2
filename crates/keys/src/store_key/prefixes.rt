//! Keys and the prefixes that they lie under.
ghost use Rattle.std.specs.Prelude.{◌≡◌, Decides};
ghost use Rattle.keys.specs.Text.{Begins, as_prefix, shortened};
ghost use Rattle.keys.specs.StoreKeys.{text, MadeKey};
ghost use Rattle.keys.specs.StorePrefixes.{prefix_text, ParentIs};

use super::{StoreKey, StoreKeyError};
use crate::store_prefix::StorePrefix;
use crate::text::begins_with;

impl StoreKey {
    /// True if the key begins with `prefix`.
    pub fn has_prefix(&self, prefix: &StorePrefix) -> bool
        ensures { Decides result (Begins (text self.now) (prefix_text prefix.now)) }
    {
        begins_with(self.as_bytes(), prefix.as_bytes())
    }

    /// The prefix of this key's bytes with a slash behind them; the root prefix for the root key.
    pub fn to_prefix(&self) -> StorePrefix
        ensures { prefix_text result ≡ as_prefix (text self.now) }
    {
        StorePrefix::of_key(self.as_bytes())
    }

    /// The prefix through the key's last slash, or the root.
    pub fn parent(&self) -> StorePrefix
        ensures { ParentIs (text self.now) result }
    {
        StorePrefix::parent_of(self.as_bytes())
    }
}

/// The key of the prefix's bytes less the trailing slash; the root key for the root prefix.
impl TryFrom<&StorePrefix> for StoreKey {
    type Error = StoreKeyError;

    ghost try_from_gives = { λ prefix r. MadeKey (shortened (prefix_text prefix.now)) r };

    fn try_from(prefix: &StorePrefix) -> Result<Self, StoreKeyError> {
        match prefix.as_bytes().split_last() {
            Some((_, front)) => StoreKey::new(front),
            None => Ok(StoreKey::root()),
        }
    }
}
