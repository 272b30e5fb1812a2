//! Reading, written once over the interface.

ghost use Rattle.keys.specs.StoreKeys.{text};
ghost use Rattle.storage.specs.Contents.{found};
ghost use Rattle.storage.specs.Readings.{ValueRead, RangeRead};

use crate::fault::Fault;
use crate::storage_sync::ReadableStorageTraits;
use extraction::{Note, Place};
use keys::store_key::StoreKey;
use ranges::byte_range::ByteRange;

/// Puts the value under `key` at the front of the output, and answers its length; none if the key is not stored.
pub fn get<S: ReadableStorageTraits>(
    store: &S,
    key: &StoreKey,
    out: &mut [u8],
) -> Result<Option<usize>, Fault>
    ensures { ValueRead S.ReadableStorageTraits.layers (found (text key.now) (S.ReadableStorageTraits.contents store.now)) result out.old out.new }
{
    let mut notes = [Ok(Place { start: 0, len: 0 })];
    store.get_partial_many(key, &[ByteRange::FromStart(0, None)], out, &mut notes)
}

/// Puts the bytes that the range picks of the value under `key` at the front of the output, and answers their number; none if the key is not stored.
pub fn get_partial<S: ReadableStorageTraits>(
    store: &S,
    key: &StoreKey,
    range: ByteRange,
    out: &mut [u8],
) -> Result<Option<usize>, Fault>
    ensures { RangeRead S.ReadableStorageTraits.layers (found (text key.now) (S.ReadableStorageTraits.contents store.now)) range result out.old out.new }
{
    let mut notes = [Ok(Place { start: 0, len: 0 })];
    let read = store.get_partial_many(key, &[range], out, &mut notes)?;
    notes[0]?;
    Ok(read)
}
