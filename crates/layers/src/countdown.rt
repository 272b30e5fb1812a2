//! A store whose power fails after a number of writes.

ghost use Rattle.std.specs.Prelude.{◌≡◌, suc, ◌<◌};
ghost use Rattle.keys.specs.StoreKeys.{text};
ghost use Rattle.keys.specs.StorePrefixes.{prefix_text};
ghost use Rattle.storage.specs.Writes.{set, erase, erase_prefix, rename};
ghost use Rattle.layers.specs.Countdown.{counted, Powered, Counts};
ghost use Rattle.layers.specs.Lowering.{Lowered, WroteThrough, WroteAtThrough, Written};
ghost use Rattle.layers.specs.Counts.{refuses};
ghost use Rattle.std.proofs.Common.{rules};

use extraction::Note;
use keys::store_key::StoreKey;
use keys::store_prefix::StorePrefix;
use patches::Patch;
use ranges::byte_range::ByteRange;
use storage::fault::{Cause, Fault};
use storage::patching::begin_offset_write;
use storage::storage_sync::ReadableStorageTraits;
use storage::storage_sync::writes::{
    AtomicRenameStorageTraits, ListableStorageTraits, WritableStorageTraits,
};

/// A layer that takes `left` writes more, and `again` of them once the power is on again. It owns the store below.
#[derive(Drop)]
pub struct Countdown<S> {
    storage: S,
    left: u64,
    again: u64,
}

impl<S> Countdown<S> {
    /// A layer over `storage`.
    pub fn new(storage: S, left: u64, again: u64) -> Self
        ensures { result ≡ record { storage = storage; left = left; again = again } }
    {
        Countdown {
            storage,
            left,
            again,
        }
    }

    /// The store below.
    pub fn into_inner(self) -> S
        ensures { result ≡ self.storage }
    {
        self.storage
    }

    /// Does the device take a write?
    fn has_power(&self) -> Result<(), Fault>
        ensures { Powered self.now.left result }
    {
        if self.left == 0 {
            return Err(Fault::own(Cause::Device));
        }
        Ok(())
    }

    /// A write through the layer: where one is left, the store below is asked.
    fn written<F: FnOnce(&mut S) -> Result<(), Fault>>(&mut self, write: F) -> Result<(), Fault>
        requires { F.IsAlwaysCallable write }
        ensures { Written F.FnOnce write result self.old self.new }
    {
        self.has_power()?;
        let answer = write(&mut self.storage);
        self.count(answer)
    }

    /// Counts a write that the store below took, and passes a refusal up.
    fn count(&mut self, answer: Result<(), Fault>) -> Result<(), Fault>
        requires { 0 < self.old.left }
        ensures below { (self.new.storage ≡ self.old.storage) × (self.new.again ≡ self.old.again) }
        ensures counts { Counts self.old.left self.new.left answer result }
    {
        answer.map_err(Fault::raised)?;
        self.left -= 1;
        Ok(())
    }
}

impl<S: ReadableStorageTraits> ReadableStorageTraits for Countdown<S> {
    ghost contents = { λ s. S.ReadableStorageTraits.contents s.storage };

    ghost verdict = { λ s. counted s.left (S.ReadableStorageTraits.verdict s.storage) };

    ghost tidy = { S.ReadableStorageTraits.tidy };

    ghost inplace = { S.ReadableStorageTraits.inplace };

    ghost layers = { suc S.ReadableStorageTraits.layers };

    ghost sound = { Prim.search rules };

    ghost absent = { λ s j k n. refuses _ _ (rename j k) (S.ReadableStorageTraits.absent s.storage j k n) };

    fn size_key(&self, key: &StoreKey) -> Option<u64> {
        self.storage.size_key(key)
    }

    fn get_partial_many(
        &self,
        key: &StoreKey,
        ranges: &[ByteRange],
        out: &mut [u8],
        notes: &mut [Note],
    ) -> Result<Option<usize>, Fault> {
        self.storage
            .get_partial_many(key, ranges, out, notes)
            .map_err(Fault::raised)
    }

    fn supports_get_partial(&self) -> bool {
        self.storage.supports_get_partial()
    }
}

impl<S: ListableStorageTraits> ListableStorageTraits for Countdown<S> {
    fn key_at(&self, n: usize) -> Option<StoreKey> {
        self.storage.key_at(n)
    }
}

impl<S: WritableStorageTraits> WritableStorageTraits for Countdown<S> {
    fn set(&mut self, key: &StoreKey, value: &[u8]) -> Result<(), Fault>
        ensures wrote { WroteThrough S.ReadableStorageTraits (set (text key.now) value.now) result self.old self.new }
        ensures counts { Lowered result self.old self.new }
    {
        self.written(|storage| storage.set(key, value))
    }

    fn set_partial_many(
        &mut self,
        key: &StoreKey,
        patches: &[Patch],
        source: &[u8],
        work: &mut [u8],
    ) -> Result<(), Fault>
        ensures wrote { WroteAtThrough S.ReadableStorageTraits (text key.now) source.now patches.now result self.old self.new work.old work.new }
        ensures counts { Lowered result self.old self.new }
    {
        let in_place = self.storage.supports_set_partial();
        begin_offset_write(&self.storage, in_place, key, patches, source, work)?;
        // not by `written`: what a closure leaves in a buffer that it captures is not known after the call
        self.has_power()?;
        let answer = self.storage.set_partial_many(key, patches, source, work);
        self.count(answer)
    }

    fn supports_set_partial(&self) -> bool {
        self.storage.supports_set_partial()
    }

    fn erase(&mut self, key: &StoreKey) -> Result<(), Fault>
        ensures wrote { WroteThrough S.ReadableStorageTraits (erase (text key.now)) result self.old self.new }
        ensures counts { Lowered result self.old self.new }
    {
        self.written(|storage| storage.erase(key))
    }

    fn erase_prefix(&mut self, prefix: &StorePrefix) -> Result<(), Fault>
        ensures wrote { WroteThrough S.ReadableStorageTraits (erase_prefix (prefix_text prefix.now)) result self.old self.new }
        ensures counts { Lowered result self.old self.new }
    {
        self.written(|storage| storage.erase_prefix(prefix))
    }

    fn power_on(&mut self)
        ensures same { S.ReadableStorageTraits.contents self.new.storage ≡ S.ReadableStorageTraits.contents self.old.storage }
        ensures left { (self.new.left ≡ self.old.again) × (self.new.again ≡ self.old.again) }
    {
        self.left = self.again;
        self.storage.power_on();
    }
}

impl<S: AtomicRenameStorageTraits> AtomicRenameStorageTraits for Countdown<S> {
    fn rename(&mut self, source: &StoreKey, destination: &StoreKey) -> Result<(), Fault>
        ensures wrote { WroteThrough S.ReadableStorageTraits (rename (text source.now) (text destination.now)) result self.old self.new }
        ensures counts { Lowered result self.old self.new }
    {
        self.written(|storage| storage.rename(source, destination))
    }
}
