//! What the tests share.

use keys::row::Row;
use keys::store_key::StoreKey;
use keys::store_prefix::StorePrefix;
use listings::listing::StoreKeysPrefixes;
use memory_store::memory_store::MemoryStore;
use storage::fault::Fault;
use storage::storage_sync::writes::WritableStorageTraits;

pub(crate) fn key(text: &[u8]) -> StoreKey {
    StoreKey::new(text).unwrap_or(StoreKey::root())
}

pub(crate) fn prefix(text: &[u8]) -> StorePrefix {
    StorePrefix::new(text).unwrap_or(StorePrefix::root())
}

/// Stores a value of three bytes.
pub(crate) fn put(store: &mut MemoryStore, text: &[u8]) {
    let _ = store.set(&key(text), b"xyz");
}

/// How many rows were listed, or the number and the depth of the refusal.
pub(crate) fn told(r: Result<usize, Fault>) -> Result<usize, (u8, u16)> {
    r.map_err(number)
}

/// The same of keys and prefixes.
pub(crate) fn told_both(r: Result<StoreKeysPrefixes, Fault>) -> Result<(usize, usize), (u8, u16)> {
    r.map(|found| (found.keys, found.prefixes)).map_err(number)
}

fn number(f: Fault) -> (u8, u16) {
    (f.cause.number(), f.depth)
}

/// True if a row holds the text.
pub(crate) fn holds(row: &Row, text: &[u8]) -> bool {
    row.as_bytes() == text
}
