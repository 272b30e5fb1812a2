ghost use Rattle.std.specs.Prelude.{true, refl};
ghost use Rattle.memory_store.specs.Memory.{holds, ruling};
ghost use Rattle.memory_store.specs.Memories.{sound};
ghost use Rattle.storage.specs.Faults;
ghost use Rattle.storage.specs.declared.fault.Cause.TheVariants.{Absent};

use super::MemoryStore;
use extraction::{MAX_RANGES, Note, read_byte_ranges};
use keys::store_key::StoreKey;
use ranges::byte_range::ByteRange;
use storage::fault::{Cause, Fault};
use storage::storage_sync::ReadableStorageTraits;
use storage::storage_sync::writes::ListableStorageTraits;

impl ReadableStorageTraits for MemoryStore {
    ghost contents = { holds };

    ghost verdict = { λ m w. ruling (holds m) w };

    ghost tidy = { true };

    ghost inplace = { true };

    ghost layers = { 0 };

    ghost sound = { λ m. sound m.table };

    ghost absent = { λ m a b e. (Faults.own Absent, rw e refl) };

    fn size_key(&self, key: &StoreKey) -> Option<u64> {
        self.table.value(key).map(|value| value.len() as u64)
    }

    fn get_partial_many(
        &self,
        key: &StoreKey,
        ranges: &[ByteRange],
        out: &mut [u8],
        notes: &mut [Note],
    ) -> Result<Option<usize>, Fault> {
        match self.table.value(key) {
            Some(value) => Ok(Some(read_byte_ranges(value, ranges, out, notes)?)),
            None if ranges.len() > MAX_RANGES => Err(Fault::own(Cause::Limit)),
            None => Ok(None),
        }
    }

    fn supports_get_partial(&self) -> bool {
        true
    }
}

impl ListableStorageTraits for MemoryStore {
    fn key_at(&self, n: usize) -> Option<StoreKey> {
        self.table.key_at(n)
    }
}
