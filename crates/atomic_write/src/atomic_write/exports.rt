//! Exports, and what is forwarded.

ghost use Rattle.std.specs.Prelude.{◌≡◌, true, false, is_ok, Ok};
ghost use Rattle.keys.specs.StoreKeys.{text};
ghost use Rattle.keys.specs.StorePrefixes.{prefix_text};
ghost use Rattle.storage.specs.Contents.{put};
ghost use Rattle.storage.specs.Stores.{Wrote, WroteAt};
ghost use Rattle.storage.specs.Writes.{set, erase, erase_prefix};
ghost use Rattle.atomic_write.specs.Exports.{TemporaryKey, Exported, PatchExported};
ghost use Rattle.atomic_write.specs.Adapters.{over};

use super::{AtomicWriteStorageAdapter, temporary_key};
use keys::store_key::StoreKey;
use keys::store_prefix::StorePrefix;
use patches::Patch;
use storage::fault::{Cause, Fault};
use storage::patching::build_patched;
use storage::storage_sync::ReadableStorageTraits;
use storage::storage_sync::writes::{AtomicRenameStorageTraits, WritableStorageTraits};

impl<S: AtomicRenameStorageTraits> AtomicWriteStorageAdapter<S> {
    /// Is the temporary key absent? Then sets it (step 1), and renames it (step 2).
    fn set_via_temporary_key(
        &mut self,
        key: &StoreKey,
        temporary: &StoreKey,
        value: &[u8],
    ) -> Result<(), Fault>
        requires { TemporaryKey (text key.now) (Ok temporary.now) }
        ensures stored { is_ok result ≡ true → S.ReadableStorageTraits.contents self.new.storage ≡ put (text key.now) value.now (S.ReadableStorageTraits.contents self.old.storage) }
        ensures exported { S.ReadableStorageTraits.tidy ≡ true → Exported S.ReadableStorageTraits (text key.now) value.now self.old.storage self.new.storage result }
    {
        if self.storage.size_key(temporary).is_some() {
            return Err(Fault::own(Cause::Exists));
        }
        self.storage
            .set(temporary, value)
            .map_err(|f| f.raised().at_step(1))?;
        self.storage
            .rename(temporary, key)
            .map_err(|f| f.raised().at_step(2))
    }
}

impl<S: AtomicRenameStorageTraits> WritableStorageTraits for AtomicWriteStorageAdapter<S> {
    /// Exports `value` under `key`: sets the temporary key (step 1), then renames it (step 2).
    fn set(&mut self, key: &StoreKey, value: &[u8]) -> Result<(), Fault>
        ensures wrote { Wrote (over false S.ReadableStorageTraits) (set (text key.now) value.now) result self.old self.new }
        ensures exported { S.ReadableStorageTraits.tidy ≡ true → Exported S.ReadableStorageTraits (text key.now) value.now self.old.storage self.new.storage result }
    {
        let temporary = temporary_key(key)?;
        self.set_via_temporary_key(key, &temporary, value)
    }

    /// Builds what the patches make of the value under `key` in the work buffer, and exports it.
    fn set_partial_many(
        &mut self,
        key: &StoreKey,
        patches: &[Patch],
        source: &[u8],
        work: &mut [u8],
    ) -> Result<(), Fault>
        ensures wrote { WroteAt (over false S.ReadableStorageTraits) (text key.now) source.now patches.now result self.old self.new work.old work.new }
        ensures exported { S.ReadableStorageTraits.tidy ≡ true → PatchExported S.ReadableStorageTraits (text key.now) source.now patches.now self.old.storage self.new.storage work.old work.new result }
    {
        let temporary = temporary_key(key)?;
        let n = build_patched(&self.storage, key, patches, source, work)?;
        self.set_via_temporary_key(key, &temporary, &work[0..n])
    }

    fn supports_set_partial(&self) -> bool {
        false
    }

    fn erase(&mut self, key: &StoreKey) -> Result<(), Fault>
        ensures wrote { Wrote (over false S.ReadableStorageTraits) (erase (text key.now)) result self.old self.new }
        ensures forwarded { Wrote (over S.ReadableStorageTraits.tidy S.ReadableStorageTraits) (erase (text key.now)) result self.old self.new }
    {
        self.storage.erase(key).map_err(Fault::raised)
    }

    fn erase_prefix(&mut self, prefix: &StorePrefix) -> Result<(), Fault>
        ensures wrote { Wrote (over false S.ReadableStorageTraits) (erase_prefix (prefix_text prefix.now)) result self.old self.new }
        ensures forwarded { Wrote (over S.ReadableStorageTraits.tidy S.ReadableStorageTraits) (erase_prefix (prefix_text prefix.now)) result self.old self.new }
    {
        self.storage.erase_prefix(prefix).map_err(Fault::raised)
    }

    fn power_on(&mut self) {
        self.storage.power_on();
    }
}
