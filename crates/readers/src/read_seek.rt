//! Extraction of byte ranges through a reader.
ghost use Rattle.std.specs.Prelude.{◌≡◌, ◌≤◌, [], length, is_ok, if◌then◌else◌, Ok};
ghost use Rattle.std.proofs.Math.Seq.{paste};
ghost use Rattle.std.specs.Option.{unwrap_or};
ghost use Rattle.ranges.specs.Ranges.{start_of, inside};
ghost use Rattle.extraction.specs.Notes.{placed};
ghost use Rattle.readers.specs.Agreement.{Agrees};
ghost use Rattle.readers.specs.Moves.{MovedTo, value_in, HasValue};
ghost use Rattle.readers.specs.ItemSeeks.{item_seek, item_left, start_given};
ghost use Rattle.readers.specs.ReadSeek.{read_length, item_no, first_refused, left_at, ItemsRead, Extracted, extracted_at};
ghost use Rattle.readers.specs.ReaderFaults.{unless_fault};

use crate::reader::calls::{Read, Seek};
use crate::reader_fault::{ReadCause, ReaderFault};
use crate::seek_from::{MAX_SEEK, SeekFrom};
use extraction::{MAX_RANGES, Note, Place};
use ranges::byte_range::ByteRange;

/// Puts the bytes of the ranges end to end at the front of the output, with a note for each, and answers their number.
///
/// For each range in turn it seeks and reads; the length of the value is found by a seek to its end.
/// Where `extract_byte_ranges` passes its questions on the value, this gives the same.
pub fn extract_byte_ranges_read_seek<R: Read + Seek>(
    reader: &mut R,
    ranges: &[ByteRange],
    out: &mut [u8],
    notes: &mut [Note],
) -> Result<usize, ReaderFault>
    ensures read { Extracted (R.Reader.value reader.old) ranges.now result out.old out.new notes.old notes.new }
    ensures place { MovedTo R.Reader (extracted_at (R.Reader.value reader.old) ranges.now (length out.old) (length notes.old) (R.Reader.position reader.old)) reader.old reader.new }
    ensures agrees { Agrees (R.Reader.value reader.old) ranges.now result out.old out.new notes.old notes.new }
{
    if ranges.len() > MAX_RANGES {
        return Err(ReaderFault::own(ReadCause::Limit));
    }
    read_from_end(reader, ranges, out, notes)
}

// Finds the length of the value by a seek to its end, then reads the items.
fn read_from_end<R: Read + Seek>(
    reader: &mut R,
    ranges: &[ByteRange],
    out: &mut [u8],
    notes: &mut [Note],
) -> Result<usize, ReaderFault>
    requires { length ranges.now ≤ 64 }
    ensures read { Extracted (R.Reader.value reader.old) ranges.now result out.old out.new notes.old notes.new }
    ensures place { MovedTo R.Reader (extracted_at (R.Reader.value reader.old) ranges.now (length out.old) (length notes.old) (R.Reader.position reader.old)) reader.old reader.new }
    ensures agrees { Agrees (R.Reader.value reader.old) ranges.now result out.old out.new notes.old notes.new }
{
    let size = reader.seek(SeekFrom::End(0))?;
    read_items(reader, size, ranges, out, notes)
}

// Reads the items of a value of `size` bytes in turn, from its end on.
fn read_items<R: Read + Seek>(
    reader: &mut R,
    size: u64,
    ranges: &[ByteRange],
    out: &mut [u8],
    notes: &mut [Note],
) -> Result<usize, ReaderFault>
    requires value { HasValue R.Reader reader.old }
    requires size { size ≡ length (value_in R.Reader reader.old) }
    requires place { R.Reader.position reader.old ≡ size }
    ensures read { ItemsRead (value_in R.Reader reader.old) ranges.now (first_refused (value_in R.Reader reader.old) (length out.old) (length notes.old) [] ranges.now) result out.old out.new notes.old notes.new }
    ensures place { MovedTo R.Reader (left_at (value_in R.Reader reader.old) (first_refused (value_in R.Reader reader.old) (length out.old) (length notes.old) [] ranges.now) ranges.now) reader.old reader.new }
{
    let mut at = 0;
    for (i, range) in ranges.iter().enumerate() {
        let read = read_item(reader, size, *range, out, at, i < notes.len());
        let len = read.map_err(|f| f.at_item(i))?;
        notes[i] = bytes_at(at, len);
        at += len;
    }
    Ok(at)
}

// The note of an item's bytes.
fn bytes_at(start: usize, len: usize) -> Note
    ensures { result ≡ placed start len }
{
    Ok(Place { start, len })
}

// Reads an item into the output from `at` on, where it has a note, and answers how many bytes it has.
fn read_item<R: Read + Seek>(
    reader: &mut R,
    size: u64,
    range: ByteRange,
    out: &mut [u8],
    at: usize,
    noted: bool,
) -> Result<usize, ReaderFault>
    requires value { HasValue R.Reader reader.old }
    requires size { size ≡ length (value_in R.Reader reader.old) }
    requires within { at ≤ length out.old }
    ensures answer { result ≡ unless_fault (item_no (value_in R.Reader reader.old) (length out.old) at noted range) (length (inside (value_in R.Reader reader.old) range)) }
    ensures output { out.new ≡ (if is_ok result then paste out.old at (inside (value_in R.Reader reader.old) range) (length (inside (value_in R.Reader reader.old) range)) else out.old) }
    ensures place { MovedTo R.Reader (item_left range size (R.Reader.position reader.old) result) reader.old reader.new }
{
    seek_item(reader, range)?;
    let len = item_len(range, size);
    if !noted || len > out.len() - at {
        return Err(ReaderFault::own(ReadCause::Short));
    }
    reader.read_exact(&mut out[at..at + len])?;
    Ok(len)
}

// Seeks the first byte of an item.
fn seek_item<R: Seek>(reader: &mut R, range: ByteRange) -> Result<u64, ReaderFault>
    requires { HasValue R.Reader reader.old }
    ensures answer { result ≡ start_given (start_of range (length (value_in R.Reader reader.old))) }
    ensures place { MovedTo R.Reader (unwrap_or (start_of range (length (value_in R.Reader reader.old))) (R.Reader.position reader.old)) reader.old reader.new }
{
    reader.seek(item_seek(range)?)
}

// The seek to the first byte of an item; a suffix of 2^63 bytes or more starts before any value.
fn item_seek(range: ByteRange) -> Result<SeekFrom, ReaderFault>
    ensures { result ≡ item_seek range }
{
    match range {
        ByteRange::FromStart(offset, _) => Ok(SeekFrom::Start(offset)),
        ByteRange::Suffix(length) if length > MAX_SEEK => Err(ReaderFault::own(ReadCause::Seek)),
        ByteRange::Suffix(length) => Ok(SeekFrom::End(-(length as i64))),
    }
}

// How many bytes an item has.
fn item_len(range: ByteRange, size: u64) -> usize
    ensures { result ≡ read_length range size }
{
    let len = match range {
        ByteRange::FromStart(offset, None) => size.checked_sub(offset).unwrap_or(size),
        ByteRange::FromStart(_, Some(length)) | ByteRange::Suffix(length) => length,
    };
    len as usize
}
