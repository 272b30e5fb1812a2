use super::MemoryStore;
use keys::store_key::StoreKey;
use keys::store_prefix::StorePrefix;
use patches::{Patch, check_patches};
use storage::fault::{Cause, Fault};
use storage::storage_sync::ReadableStorageTraits;
use storage::storage_sync::writes::{AtomicRenameStorageTraits, WritableStorageTraits};

impl WritableStorageTraits for MemoryStore {
    fn set(&mut self, key: &StoreKey, value: &[u8]) -> Result<(), Fault> {
        self.table.replace(key, value)
    }

    fn set_partial_many(
        &mut self,
        key: &StoreKey,
        patches: &[Patch],
        source: &[u8],
        _work: &mut [u8],
    ) -> Result<(), Fault> {
        check_patches(patches, source)?;
        if patches.is_empty() {
            return Ok(());
        }
        let n = self
            .table
            .patched(key, patches, source, self.spare.as_mut_slice())
            // longer than all value bytes that the store holds
            .map_err(|_| Fault::own(Cause::Full))?;
        self.table.replace(key, &self.spare.as_slice()[..n])
    }

    fn supports_set_partial(&self) -> bool {
        true
    }

    fn erase(&mut self, key: &StoreKey) -> Result<(), Fault> {
        self.table.remove(key);
        Ok(())
    }

    fn erase_prefix(&mut self, prefix: &StorePrefix) -> Result<(), Fault> {
        self.table.remove_prefix(prefix);
        Ok(())
    }

    fn power_on(&mut self) {}
}

impl AtomicRenameStorageTraits for MemoryStore {
    fn rename(&mut self, source: &StoreKey, destination: &StoreKey) -> Result<(), Fault> {
        let n = self
            .table
            .copy_out(source, self.spare.as_mut_slice())
            .ok_or(Fault::own(Cause::Absent))?;
        self.table.remove(source);
        // as many bytes are free as are put, so that there is room
        self.table.replace(destination, &self.spare.as_slice()[..n])
    }
}
