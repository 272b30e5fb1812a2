//! Erasing many keys through the adapter.

ghost use Rattle.storage.specs.Erasures.{RowErased, ErasedMany};
ghost use Rattle.atomic_write.specs.Adapters.{over};

use super::AtomicWriteStorageAdapter;
use keys::row::Row;
use keys::store_key::StoreKey;
use storage::fault::Fault;
use storage::storage_sync::ReadableStorageTraits;
use storage::storage_sync::writes::{AtomicRenameStorageTraits, WritableStorageTraits};

impl<S: AtomicRenameStorageTraits> AtomicWriteStorageAdapter<S> {
    /// Removes the keys that lie as rows, in turn. The first row that is no key, or whose erasure is refused, ends it; those before it are erased then.
    ///
    /// The walk of `storage::erasing::erase_many`, whose promise on a refusal is of tidy stores only.
    pub fn erase_many(&mut self, rows: &[Row]) -> Result<(), Fault>
        ensures { ErasedMany (over S.ReadableStorageTraits.tidy S.ReadableStorageTraits) rows.now result self.old self.new }
    {
        for (i, row) in rows.iter().enumerate() {
            self.erase_row(row).map_err(|f| f.at_index(i))?;
        }
        Ok(())
    }

    fn erase_row(&mut self, row: &Row) -> Result<(), Fault>
        ensures { RowErased (over S.ReadableStorageTraits.tidy S.ReadableStorageTraits) row.now result self.old self.new }
    {
        let key = StoreKey::try_from(row)?;
        self.erase(&key)
    }
}
