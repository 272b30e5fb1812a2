//! Keys, prefixes and sizes under a prefix.

ghost use Rattle.std.specs.Prelude.{◌≡◌, [], length};
ghost use Rattle.keys.specs.StoreKeys.{text};
ghost use Rattle.keys.specs.StorePrefixes.{prefix_text};
ghost use Rattle.storage.specs.Contents.{total};
ghost use Rattle.storage.specs.Stores.{value_in};
ghost use Rattle.listings.specs.Listings.{Stored, StoredUnder, Child, Listed, DirListed, size_under};
ghost use Rattle.listings.specs.Picks.{Listing};

use crate::gather::{count, fill};
use crate::pick::Selection;
use crate::stored_keys::stored_keys;
use keys::row::Row;
use keys::store_key::StoreKey;
use keys::store_prefix::StorePrefix;
use storage::fault::{Cause, Fault};
use storage::storage_sync::writes::ListableStorageTraits;

/// How many keys and prefixes a listing found.
#[derive(Clone, Copy)]
pub struct StoreKeysPrefixes {
    pub keys: usize,
    pub prefixes: usize,
}

/// Puts all stored keys, ascending, at the front of `keys`, and answers how many they are.
pub fn list<S: ListableStorageTraits>(store: &S, keys: &mut [Row]) -> Result<usize, Fault>
    ensures { Listed (Stored (S.ReadableStorageTraits.contents store.now)) result keys.old keys.new }
{
    gathered(store, Selection::Keys, &StorePrefix::root(), keys)
}

/// Puts the stored keys that begin with `prefix`, ascending, at the front of `keys`, and answers how many they are.
pub fn list_prefix<S: ListableStorageTraits>(
    store: &S,
    prefix: &StorePrefix,
    keys: &mut [Row],
) -> Result<usize, Fault>
    ensures { Listed (StoredUnder (prefix_text prefix.now) (S.ReadableStorageTraits.contents store.now)) result keys.old keys.new }
{
    gathered(store, Selection::KeysUnder, prefix, keys)
}

/// Puts the keys whose parent is `prefix` at the front of `keys`, and the prefixes right below it, which stored keys extend, at the front of `prefixes`, both ascending; answers how many they are.
pub fn list_dir<S: ListableStorageTraits>(
    store: &S,
    prefix: &StorePrefix,
    keys: &mut [Row],
    prefixes: &mut [Row],
) -> Result<StoreKeysPrefixes, Fault>
    ensures { DirListed (prefix_text prefix.now) (S.ReadableStorageTraits.contents store.now) result keys.old keys.new prefixes.old prefixes.new }
{
    gathered_dir(store, prefix, keys, prefixes)
}

/// Puts the prefixes of `list_dir` of which no component begins with `__` at the front of `prefixes`, and answers how many they are.
pub fn discover_children<S: ListableStorageTraits>(
    store: &S,
    prefix: &StorePrefix,
    prefixes: &mut [Row],
) -> Result<usize, Fault>
    ensures { Listed (Child (prefix_text prefix.now) (S.ReadableStorageTraits.contents store.now)) result prefixes.old prefixes.new }
{
    gathered(store, Selection::Children, prefix, prefixes)
}

/// Counts, asks for room, and fills.
fn gathered<S: ListableStorageTraits>(
    store: &S,
    selection: Selection,
    prefix: &StorePrefix,
    rows: &mut [Row],
) -> Result<usize, Fault>
    ensures { Listed (Listing selection (prefix_text prefix.now) (S.ReadableStorageTraits.contents store.now)) result rows.old rows.new }
{
    let found = count(store, selection, prefix);
    if found > rows.len() {
        return Err(Fault::own(Cause::Short));
    }
    fill(store, selection, prefix, rows);
    Ok(found)
}

/// The same of keys and prefixes: counts both, asks for room in both, and fills both.
fn gathered_dir<S: ListableStorageTraits>(
    store: &S,
    prefix: &StorePrefix,
    keys: &mut [Row],
    prefixes: &mut [Row],
) -> Result<StoreKeysPrefixes, Fault>
    ensures { DirListed (prefix_text prefix.now) (S.ReadableStorageTraits.contents store.now) result keys.old keys.new prefixes.old prefixes.new }
{
    let found = StoreKeysPrefixes {
        keys: count(store, Selection::DirectKeys, prefix),
        prefixes: count(store, Selection::Prefixes, prefix),
    };
    if found.keys > keys.len() {
        return Err(Fault::own(Cause::Short));
    }
    if found.prefixes > prefixes.len() {
        return Err(Fault::own(Cause::Short));
    }
    fill(store, Selection::DirectKeys, prefix, keys);
    fill(store, Selection::Prefixes, prefix, prefixes);
    Ok(found)
}

/// The bytes of all values.
pub fn size<S: ListableStorageTraits>(store: &S) -> u64
    ensures { result ≡ total (S.ReadableStorageTraits.contents store.now) }
{
    added(store, &StorePrefix::root())
}

/// The bytes of the values under the keys that begin with `prefix`.
pub fn size_prefix<S: ListableStorageTraits>(store: &S, prefix: &StorePrefix) -> u64
    ensures { result ≡ size_under (prefix_text prefix.now) (S.ReadableStorageTraits.contents store.now) }
{
    added(store, prefix)
}

/// Adds up the lengths of values, key by key.
fn added<S: ListableStorageTraits>(store: &S, prefix: &StorePrefix) -> u64
    ensures under { result ≡ size_under (prefix_text prefix.now) (S.ReadableStorageTraits.contents store.now) }
    ensures root { prefix_text prefix.now ≡ [] → result ≡ total (S.ReadableStorageTraits.contents store.now) }
{
    let mut size = 0;
    for key in stored_keys(store) {
        if key.has_prefix(prefix) {
            size += value_len(store, &key);
        }
    }
    size
}

/// The length of the value under `key`, 0 where it is not stored.
fn value_len<S: ListableStorageTraits>(store: &S, key: &StoreKey) -> u64
    ensures { result ≡ length (value_in S.ReadableStorageTraits (text key.now) store.now) }
{
    store.size_key(key).unwrap_or(0)
}
