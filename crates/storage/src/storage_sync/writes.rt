//! Listing, writing and renaming.

ghost use Rattle.std.specs.Prelude.{◌≡◌};
ghost use Rattle.std.specs.List.{slice_get};
ghost use Rattle.std.specs.Option.{option_map};
ghost use Rattle.keys.specs.StoreKeys.{text};
ghost use Rattle.keys.specs.StorePrefixes.{prefix_text};
ghost use Rattle.storage.specs.Contents.{keys_of};
ghost use Rattle.storage.specs.Writes.{set, erase, erase_prefix, rename};
ghost use Rattle.storage.specs.Stores.{Wrote, WroteAt};

use super::ReadableStorageTraits;
use crate::fault::Fault;
use keys::store_key::StoreKey;
use keys::store_prefix::StorePrefix;
use patches::Patch;

/// Listable storage.
pub trait ListableStorageTraits: ReadableStorageTraits {
    /// The `n`-th key in ascending order, from 0; none past the last.
    fn key_at(&self, n: usize) -> Option<StoreKey>
        ensures { option_map text result ≡ slice_get (keys_of (Self.ReadableStorageTraits.contents self.now)) n };
}

/// Writable storage.
pub trait WritableStorageTraits: ReadableStorageTraits {
    /// Stores the value under `key`.
    fn set(&mut self, key: &StoreKey, value: &[u8]) -> Result<(), Fault>
        ensures { Wrote Self.ReadableStorageTraits (set (text key.now) value.now) result self.old self.new };

    /// Lays the patches, whose bytes lie in `source`, in turn on the value under `key`, or on nothing where it is not stored.
    ///
    /// Where offset writes are made in place, `work` is not used, and no patches change nothing. Elsewhere the new value is built at the front of `work`,
    /// and no patches store an absent key as empty.
    fn set_partial_many(
        &mut self,
        key: &StoreKey,
        patches: &[Patch],
        source: &[u8],
        work: &mut [u8],
    ) -> Result<(), Fault>
        ensures { WroteAt Self.ReadableStorageTraits (text key.now) source.now patches.now result self.old self.new work.old work.new };

    /// Whether offset writes are made in place, with no work buffer.
    fn supports_set_partial(&self) -> bool
        ensures { result ≡ Self.ReadableStorageTraits.inplace };

    /// Removes the key, if it is stored.
    fn erase(&mut self, key: &StoreKey) -> Result<(), Fault>
        ensures { Wrote Self.ReadableStorageTraits (erase (text key.now)) result self.old self.new };

    /// Removes every key that begins with the prefix.
    fn erase_prefix(&mut self, prefix: &StorePrefix) -> Result<(), Fault>
        ensures { Wrote Self.ReadableStorageTraits (erase_prefix (prefix_text prefix.now)) result self.old self.new };

    /// The power is on again. The verdict may change, the contents never.
    fn power_on(&mut self)
        ensures { Self.ReadableStorageTraits.contents self.new ≡ Self.ReadableStorageTraits.contents self.old };
}

/// Storage that can rename a key.
pub trait AtomicRenameStorageTraits: WritableStorageTraits {
    /// Moves the value under `source` over the one under `destination`; onto itself it leaves all as it was.
    fn rename(&mut self, source: &StoreKey, destination: &StoreKey) -> Result<(), Fault>
        ensures { Wrote Self.ReadableStorageTraits (rename (text source.now) (text destination.now)) result self.old self.new };
}
