//! Erasing many keys, written once over the interface.

ghost use Rattle.storage.specs.Erasures.{RowErased, ErasedMany};

use crate::fault::Fault;
use crate::storage_sync::ReadableStorageTraits;
use crate::storage_sync::writes::WritableStorageTraits;
use keys::row::Row;
use keys::store_key::StoreKey;

/// Removes the keys that lie as rows, in turn. The first row that is no key, or whose erasure is refused, ends it; those before it are erased then.
pub fn erase_many<S: WritableStorageTraits>(store: &mut S, rows: &[Row]) -> Result<(), Fault>
    ensures { ErasedMany S.ReadableStorageTraits rows.now result store.old store.new }
{
    for (i, row) in rows.iter().enumerate() {
        erase_row(store, row).map_err(|f| f.at_index(i))?;
    }
    Ok(())
}

/// Removes the key that lies as a row.
fn erase_row<S: WritableStorageTraits>(store: &mut S, row: &Row) -> Result<(), Fault>
    ensures { RowErased S.ReadableStorageTraits row.now result store.old store.new }
{
    let key = StoreKey::try_from(row)?;
    store.erase(&key)
}
