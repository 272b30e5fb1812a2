//! The atomic write adapter: a value is written under a temporary key and then renamed, so that a key holds the old value or the new one.

ghost use Rattle.std.specs.Prelude.{◌≡◌, suc, false};
ghost use Rattle.keys.specs.StoreKeys.{text};
ghost use Rattle.atomic_write.specs.Exports.{TemporaryKey, raised_verdict};
ghost use Rattle.atomic_write.specs.Steps.{raised_some};
ghost use Rattle.std.proofs.Common.{rules};

use extraction::Note;
use keys::store_key::StoreKey;
use ranges::byte_range::ByteRange;
use storage::fault::{Cause, Fault};
use storage::storage_sync::ReadableStorageTraits;
use storage::storage_sync::writes::ListableStorageTraits;

pub mod erasing;
pub mod exports;

/// A store whose writes go through a temporary key. It owns the store below.
#[derive(Drop)]
pub struct AtomicWriteStorageAdapter<S> {
    storage: S,
}

/// The temporary key of `key`: the key with `.tmp` behind it. The root key has none, and the temporary key has at most 120 bytes.
pub fn temporary_key(key: &StoreKey) -> Result<StoreKey, Fault>
    ensures { TemporaryKey (text key.now) result }
{
    if key.as_bytes().is_empty() {
        return Err(Fault::own(Cause::Root));
    }
    Ok(key.joined(b".tmp")?)
}

impl<S> AtomicWriteStorageAdapter<S> {
    /// An adapter over `storage`.
    pub fn new(storage: S) -> Self
        ensures { result.storage ≡ storage }
    {
        AtomicWriteStorageAdapter { storage }
    }

    /// The store below.
    pub fn into_inner(self) -> S
        ensures { result ≡ self.storage }
    {
        self.storage
    }
}

impl<S: ReadableStorageTraits> ReadableStorageTraits for AtomicWriteStorageAdapter<S> {
    ghost contents = { λ a. S.ReadableStorageTraits.contents a.storage };

    ghost verdict = { λ a. raised_verdict (S.ReadableStorageTraits.verdict a.storage) };

    ghost tidy = { false };

    ghost inplace = { false };

    ghost layers = { suc S.ReadableStorageTraits.layers };

    ghost sound = { Prim.search rules };

    ghost absent = { λ a j k n. raised_some _ (S.ReadableStorageTraits.absent a.storage j k n) };

    fn size_key(&self, key: &StoreKey) -> Option<u64> {
        self.storage.size_key(key)
    }

    fn get_partial_many(
        &self,
        key: &StoreKey,
        ranges: &[ByteRange],
        out: &mut [u8],
        notes: &mut [Note],
    ) -> Result<Option<usize>, Fault> {
        self.storage
            .get_partial_many(key, ranges, out, notes)
            .map_err(Fault::raised)
    }

    fn supports_get_partial(&self) -> bool {
        self.storage.supports_get_partial()
    }
}

impl<S: ListableStorageTraits> ListableStorageTraits for AtomicWriteStorageAdapter<S> {
    fn key_at(&self, n: usize) -> Option<StoreKey> {
        self.storage.key_at(n)
    }
}
