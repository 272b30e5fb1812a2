//! A reader over a value of a store.
ghost use Rattle.std.specs.Prelude.{◌≡◌, length};
ghost use Rattle.keys.specs.StoreKeys.{text};
ghost use Rattle.storage.specs.Contents.{found};
ghost use Rattle.readers.specs.Parts.{part_answer, part_filled};

use crate::reader::Reader;
use crate::reader::calls::{Read, Seek};
use crate::reader_fault::{ReadCause, ReaderFault};
use crate::seek_from::SeekFrom;
use keys::store_key::StoreKey;
use ranges::byte_range::ByteRange;
use storage::fault::Fault;
use storage::reads::get_partial;
use storage::storage_sync::ReadableStorageTraits;

/// A reader over the value under a key of a store, which it owns.
#[derive(Drop)]
pub struct StorageValueIO<S> {
    storage: S,
    key: StoreKey,
    position: u64,
}

impl<S> StorageValueIO<S> {
    /// A reader at the first byte of the value under `key`.
    pub fn new(storage: S, key: StoreKey) -> Self
        ensures { result ≡ record { storage = storage; key = key; position = 0 } }
    {
        StorageValueIO {
            storage,
            key,
            position: 0,
        }
    }

    /// The store.
    pub fn into_inner(self) -> S
        ensures { result ≡ self.storage }
    {
        self.storage
    }
}

impl<S: ReadableStorageTraits> Reader for StorageValueIO<S> {
    ghost value = { λ s. found (text s.key) (S.ReadableStorageTraits.contents s.storage) };

    ghost position = { λ s. s.position };

    ghost at = { λ s p. record { storage = s.storage; key = s.key; position = p } };
}

impl<S: ReadableStorageTraits> Seek for StorageValueIO<S> {
    fn seek(&mut self, from: SeekFrom) -> Result<u64, ReaderFault> {
        let size = self.storage.size_key(&self.key);
        self.position = from.place(size, self.position)?;
        Ok(self.position)
    }
}

impl<S: ReadableStorageTraits> Read for StorageValueIO<S> {
    fn read_exact(&mut self, out: &mut [u8]) -> Result<(), ReaderFault> {
        if out.is_empty() {
            return Ok(());
        }
        let Some(n) = get_part(&self.storage, &self.key, self.position, out)? else {
            return Err(ReaderFault::own(ReadCause::Absent));
        };
        self.position += n as u64;
        Ok(())
    }
}

// Fills the output with the bytes from `position` on of the value under `key`, and answers how many that are; none if the key is not stored.
fn get_part<S: ReadableStorageTraits>(
    store: &S,
    key: &StoreKey,
    position: u64,
    out: &mut [u8],
) -> Result<Option<usize>, Fault>
    ensures answer { result ≡ part_answer (found (text key.now) (S.ReadableStorageTraits.contents store.now)) position (length out.old) }
    ensures output { out.new ≡ part_filled (found (text key.now) (S.ReadableStorageTraits.contents store.now)) position out.old }
{
    let range = ByteRange::FromStart(position, Some(out.len() as u64));
    get_partial(store, key, range, out)
}
