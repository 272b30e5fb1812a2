//! What any store gives back.

ghost use Rattle.keys.specs.StoreKeys.{text};
ghost use Rattle.storage.specs.Stores.{ReadBack};

use crate::fault::Fault;
use crate::reads::get;
use crate::storage_sync::ReadableStorageTraits;
use crate::storage_sync::writes::WritableStorageTraits;
use keys::store_key::StoreKey;

/// Stores the value under `key` and reads it back: through any store, whatever layers lie below, what is read is the value that was set.
pub fn set_and_get<S: WritableStorageTraits>(
    store: &mut S,
    key: &StoreKey,
    value: &[u8],
    out: &mut [u8],
) -> Result<Option<usize>, Fault>
    ensures { ReadBack S.ReadableStorageTraits (text key.now) value.now result store.old store.new out.old out.new }
{
    store.set(key, value)?;
    get(store, key, out)
}
