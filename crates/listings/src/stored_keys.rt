//! The keys of a store, one by one.

ghost use Rattle.std.specs.Prelude.{◌≡◌, ◌-◌, length};
ghost use Rattle.std.specs.Iterator.{at_most};
ghost use Rattle.storage.specs.Contents.{keys_of};
ghost use Rattle.listings.specs.StoredKeys.{GivesKey};

use keys::store_key::StoreKey;
use storage::storage_sync::ReadableStorageTraits;
use storage::storage_sync::writes::ListableStorageTraits;

/// The keys of a store from a place on, ascending.
#[derive(Drop)]
pub struct StoredKeys<'a, S> {
    store: &'a S,
    next: usize,
}

/// All keys of a store, ascending.
pub fn stored_keys<S>(store: &S) -> StoredKeys<'_, S>
    ensures store { result.store.now ≡ store.now }
    ensures first { result.next ≡ 0 }
{
    StoredKeys { store, next: 0 }
}

impl<'a, S: ListableStorageTraits> Iterator for StoredKeys<'a, S> {
    type Item = StoreKey;

    ghost next_gives = { λ s r t. GivesKey (keys_of (S.ReadableStorageTraits.contents s.store.now)) s.next r t.next × (t.store ≡ s.store) };

    ghost remaining = { λ s. at_most (length (keys_of (S.ReadableStorageTraits.contents s.store.now)) - s.next) };

    fn next(&mut self) -> Option<StoreKey> {
        let key = self.store.key_at(self.next)?;
        self.next += 1;
        Some(key)
    }
}
