//! Byte ranges of a stored value, read through a reader.
ghost use Rattle.std.specs.Prelude.{◌≡◌};
ghost use Rattle.keys.specs.StoreKeys.{text};
ghost use Rattle.storage.specs.Contents.{found};
ghost use Rattle.readers.specs.ReadSeek.{Extracted};

use crate::read_seek::extract_byte_ranges_read_seek;
use crate::reader_fault::ReaderFault;
use crate::storage_value_io::StorageValueIO;
use extraction::Note;
use keys::store_key::StoreKey;
use ranges::byte_range::ByteRange;
use storage::storage_sync::ReadableStorageTraits;

/// Extracts byte ranges of the value under `key` through a reader, and gives the store back as it was.
pub fn extract_stored_byte_ranges<S: ReadableStorageTraits>(
    storage: S,
    key: StoreKey,
    ranges: &[ByteRange],
    out: &mut [u8],
    notes: &mut [Note],
) -> (S, Result<usize, ReaderFault>)
    ensures store { result.0 ≡ storage }
    ensures read { Extracted (found (text key) (S.ReadableStorageTraits.contents storage)) ranges.now result.1 out.old out.new notes.old notes.new }
{
    read_and_close(StorageValueIO::new(storage, key), ranges, out, notes)
}

// Extracts byte ranges, and gives the reader's store back.
fn read_and_close<S: ReadableStorageTraits>(
    mut reader: StorageValueIO<S>,
    ranges: &[ByteRange],
    out: &mut [u8],
    notes: &mut [Note],
) -> (S, Result<usize, ReaderFault>)
    ensures store { result.0 ≡ reader.storage }
    ensures read { Extracted (found (text reader.key) (S.ReadableStorageTraits.contents reader.storage)) ranges.now result.1 out.old out.new notes.old notes.new }
{
    let answer = extract_byte_ranges_read_seek(&mut reader, ranges, out, notes);
    (reader.into_inner(), answer)
}
