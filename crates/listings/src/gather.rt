//! Going through the keys of a store.

ghost use Rattle.std.specs.Prelude.{◌≡◌, ◌^◌, ◌<◌};
ghost use Rattle.keys.specs.StorePrefixes.{prefix_text};
ghost use Rattle.storage.specs.Contents.{keys_of};
ghost use Rattle.listings.specs.Picks.{Counts, Puts, Gathered, Counted, Spacious, Filled};

use crate::pick::{Selection, pick};
use crate::stored_keys::stored_keys;
use keys::row::Row;
use keys::store_prefix::StorePrefix;
use order::sorted_list::insert_sorted;
use storage::storage_sync::writes::ListableStorageTraits;

/// How many rows were counted, and the last of them.
#[derive(Clone, Copy)]
pub(crate) struct Tally {
    count: usize,
    last: Option<Row>,
}

impl Tally {
    /// One more row is counted, but where it repeats the last.
    fn with(self, picked: Option<Row>) -> Tally
        requires { self.count < 2 ^ 63 }
        ensures { Counts self picked result }
    {
        match (self.last, picked) {
            (_, None) => self,
            (Some(last), Some(row)) if last == row => self,
            (_, Some(_)) => Tally {
                count: self.count + 1,
                last: picked,
            },
        }
    }
}

/// How many rows a selection takes of the keys under `prefix`, equal ones once.
pub(crate) fn count<S: ListableStorageTraits>(
    store: &S,
    selection: Selection,
    prefix: &StorePrefix,
) -> usize
    ensures { Counted (Gathered selection (prefix_text prefix.now) (keys_of (S.ReadableStorageTraits.contents store.now))) result }
{
    let mut tally = Tally {
        count: 0,
        last: None,
    };
    for key in stored_keys(store) {
        tally = tally.with(pick(selection, &key, prefix));
    }
    tally.count
}

/// Puts the rows that a selection takes of the keys under `prefix` at the front of `rows`, ascending and equal ones once.
pub(crate) fn fill<S: ListableStorageTraits>(
    store: &S,
    selection: Selection,
    prefix: &StorePrefix,
    rows: &mut [Row],
)
    requires { Spacious (Gathered selection (prefix_text prefix.now) (keys_of (S.ReadableStorageTraits.contents store.now))) rows.old }
    ensures { Filled (Gathered selection (prefix_text prefix.now) (keys_of (S.ReadableStorageTraits.contents store.now))) rows.old rows.new }
{
    let mut len = 0;
    for key in stored_keys(store) {
        len = put(rows, len, pick(selection, &key, prefix));
    }
}

/// Puts a row that was picked among the first `len`, and answers how many they are then.
fn put(rows: &mut [Row], len: usize, picked: Option<Row>) -> usize
    ensures { Puts rows.old len picked rows.new result }
{
    match picked {
        None => len,
        Some(row) => insert_sorted(rows, len, row).unwrap_or(len),
    }
}
