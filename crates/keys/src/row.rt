//! Plain rows: how keys and prefixes lie in lists.
ghost use Rattle.std.specs.Prelude.{◌≡◌, ◌≤◌, ◌==◌, ◌&&◌, [], length, refl, Decides};
ghost use Rattle.std.specs.Str.{bytes_eq};
ghost use Rattle.std.specs.Ordering.{as_partial_cmp, on, eq_of_both};
ghost use Rattle.keys.specs.StoreKeys.{text};
ghost use Rattle.keys.specs.StorePrefixes.{prefix_text};
ghost use Rattle.keys.specs.Rows.{row_text, RowOf, AsKey, AsPrefix, compare_rows};
ghost use Rattle.keys.specs.RowsLemmas.{rows_lawful, rows_partial, rows_tie, rows_total};
ghost use Rattle.std.specs.Cmp.Rules.{comparing};
ghost use Rattle.std.proofs.Common.{rules};
ghost use Rattle.std.specs.Cmp.{partial_equiv_from_equiv};

use crate::buffer::lay;
use crate::store_key::{MAX_KEY_LEN, StoreKey, StoreKeyError};
use crate::store_prefix::{MAX_PREFIX_LEN, StorePrefix, StorePrefixError};
use order::total_order::TotalOrder;
use std::cmp::Ordering;

/// A text of at most 121 bytes, the first `len` of `bytes`, that need not be a key or a prefix.
///
/// Any values may stand in the two fields: where `len` passes 121, the text is all of `bytes`, and the row is neither key nor prefix.
#[derive(Clone, Copy)]
pub struct Row {
    pub bytes: [u8; 121],
    pub len: usize,
}

impl Row {
    /// The row of the empty text.
    pub fn empty() -> Self
        ensures { RowOf [] result }
    {
        Row {
            bytes: [0; 121],
            len: 0,
        }
    }

    /// The row's text.
    pub fn as_bytes(&self) -> &[u8]
        ensures { result.now ≡ row_text self.now }
    {
        if self.len > MAX_PREFIX_LEN {
            return &self.bytes;
        }
        &self.bytes[..self.len]
    }

    /// The row of a text, with zeros behind it.
    fn holding(bytes: &[u8]) -> Self
        requires { length bytes.now ≤ 121 }
        ensures { RowOf bytes.now result }
    {
        let mut all = [0; 121];
        lay(&mut all, bytes, &[]);
        Row {
            bytes: all,
            len: bytes.len(),
        }
    }
}

/// The row of a key's text, with zeros behind it.
impl From<&StoreKey> for Row {
    ghost from_gives = { λ key r. RowOf (text key.now) r };

    fn from(key: &StoreKey) -> Row {
        Row::holding(key.as_bytes())
    }
}

/// The row of a prefix's text, with zeros behind it.
impl From<&StorePrefix> for Row {
    ghost from_gives = { λ prefix r. RowOf (prefix_text prefix.now) r };

    fn from(prefix: &StorePrefix) -> Row {
        Row::holding(prefix.as_bytes())
    }
}

/// The key of a row's text.
impl TryFrom<&Row> for StoreKey {
    type Error = StoreKeyError;

    ghost try_from_gives = { λ row r. AsKey row.now r };

    fn try_from(row: &Row) -> Result<Self, StoreKeyError> {
        if row.len > MAX_KEY_LEN {
            return Err(StoreKeyError::TooLong);
        }
        StoreKey::new(row.as_bytes())
    }
}

/// The prefix of a row's text.
impl TryFrom<&Row> for StorePrefix {
    type Error = StorePrefixError;

    ghost try_from_gives = { λ row r. AsPrefix row.now r };

    fn try_from(row: &Row) -> Result<Self, StorePrefixError> {
        if row.len > MAX_PREFIX_LEN {
            return Err(StorePrefixError::TooLong);
        }
        StorePrefix::new(row.as_bytes())
    }
}

/// Rows in the order of their texts; rows of one text by all their bytes, then by `len`, so that only equal rows compare equal.
impl Ord for Row {
    ghost cmp = { compare_rows };

    ghost total = { rows_total };

    ghost matches_partial_cmp = { λ a b. refl };

    ghost matches_eq = { rows_tie };

    #[tactic(auto, unfolding(crate::specs::ByteOrder::compare_bytes))]
    fn cmp(&self, other: &Self) -> Ordering {
        match self.as_bytes().cmp(&other.as_bytes()) {
            Ordering::Equal => self.bytes.cmp(&other.bytes).then(self.len.cmp(&other.len)),
            unequal => unequal,
        }
    }
}

impl PartialOrd for Row {
    ghost partial_cmp = { as_partial_cmp compare_rows };

    ghost laws = { rows_partial };

    fn partial_cmp(&self, other: &Self) -> Option<Ordering> {
        Some(self.cmp(other))
    }
}

impl TotalOrder for Row {
    ghost compared = { compare_rows };

    ghost total = { rows_lawful.total };

    ghost transitive = { rows_lawful.transitive };

    ghost equal = { rows_lawful.equal };

    fn compare(&self, other: &Self) -> Ordering {
        self.cmp(other)
    }
}

impl PartialEq for Row {
    ghost eq = { eq_of_both (on (λ w. w.len) ◌==◌) (on (λ w. w.bytes) bytes_eq) };

    ghost laws = { partial_equiv_from_equiv (Prim.search (comparing, rules)) };

    fn eq(&self, other: &Self) -> bool
        ensures value { result ≡ ((self.now.len == other.now.len) && bytes_eq self.now.bytes other.now.bytes) }
        ensures decides { Decides result (self.now ≡ other.now) }
    {
        self.len == other.len && self.bytes == other.bytes
    }
}

impl Eq for Row {
    ghost laws = { Prim.search (comparing, rules) };
}
