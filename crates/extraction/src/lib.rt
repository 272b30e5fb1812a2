//! Extraction of byte ranges from bytes.
#![tactic(auto)]

ghost use Rattle.std.specs.Prelude.{◌≡◌, ◌+◌, ◌^◌, ◌<◌, ◌≤◌, true, length, is_ok, if◌then◌else◌};
ghost use Rattle.std.proofs.Math.Seq.{paste};
ghost use Rattle.std.specs.Option.{ok_or};
ghost use Rattle.ranges.specs.Ranges.{only_if, in_u64, fitting, inside, picked};
ghost use Rattle.ranges.specs.Refusals.{told, valued, unless, range_refusal, unfit, all_fit, room};
ghost use Rattle.ranges.specs.Buffers.{fronted};
ghost use Rattle.extraction.specs.declared.ExtractError.TheVariants.{Unfit};
ghost use Rattle.extraction.specs.Extracts.{extract_refusal, items, note_at, notes_from, ranges_no, one_no, concat_no, extract_no, read_no};

use ranges::byte_range::{ByteRange, InvalidByteRangeError};

/// The most ranges that one call takes.
pub const MAX_RANGES: usize = 64;

/// A place in an output: where it starts, and its length.
#[derive(Clone, Copy, PartialEq, Eq)]
pub struct Place {
    pub start: usize,
    pub len: usize,
}

/// What became of one range: the place of its bytes in the output, or its fault.
pub type Note = Result<Place, InvalidByteRangeError>;

/// Why an extraction is refused.
#[derive(Clone, Copy, PartialEq, Eq)]
pub enum ExtractError {
    /// More than 64 ranges.
    TooMany,
    /// The first range that does not fit, with its index.
    Unfit(usize, InvalidByteRangeError),
    /// The output or the notes are too short.
    Short,
}

impl ExtractError {
    /// The number of this refusal.
    pub fn number(&self) -> u8
        ensures { result ≡ (extract_refusal self.now).number }
    {
        match self {
            ExtractError::TooMany => 6,
            ExtractError::Unfit(_, _) => 4,
            ExtractError::Short => 9,
        }
    }
}

/// A range that is asked for alone, and does not fit, has index 0.
impl From<InvalidByteRangeError> for ExtractError {
    ghost from_gives = { λ e x. x ≡ Unfit 0 e };

    fn from(e: InvalidByteRangeError) -> ExtractError {
        ExtractError::Unfit(0, e)
    }
}

/// The bytes of one range.
pub fn pick(bytes: &[u8], range: ByteRange) -> Result<&[u8], InvalidByteRangeError>
    ensures { told range_refusal (valued result) ≡ ok_or (only_if (fitting range (length bytes.now)) (inside bytes.now range)) (unfit 0 range (length bytes.now)) }
{
    let size = bytes.len() as u64;
    if range.fits(size) {
        Ok(cut(bytes, range))
    } else {
        Err(InvalidByteRangeError { range, size })
    }
}

/// Puts the bytes of one range at the front of the output, and returns their number.
pub fn extract_byte_range(
    bytes: &[u8],
    range: ByteRange,
    out: &mut [u8],
) -> Result<usize, ExtractError>
    ensures answer { told extract_refusal result ≡ unless (one_no bytes.now range (length out.old)) (length (picked bytes.now range)) }
    ensures out { out.new ≡ (if is_ok result then fronted (picked bytes.now range) out.old else out.old) }
{
    let len = check_range(bytes, range, out.len())?;
    copy_front(bytes, range, out);
    Ok(len)
}

/// Puts the bytes of the ranges end to end at the front of the output, with a note for each, and returns their number.
pub fn extract_byte_ranges(
    bytes: &[u8],
    ranges: &[ByteRange],
    out: &mut [u8],
    notes: &mut [Note],
) -> Result<usize, ExtractError>
    ensures answer { told extract_refusal result ≡ unless (extract_no bytes.now ranges.now (length out.old) (length notes.old)) (length (items bytes.now ranges.now)) }
    ensures out { out.new ≡ (if is_ok result then fronted (items bytes.now ranges.now) out.old else out.old) }
    ensures notes { notes.new ≡ (if is_ok result then fronted (notes_from 0 bytes.now ranges.now) notes.old else notes.old) }
{
    check_ranges(ranges, bytes.len())?;
    read_byte_ranges(bytes, ranges, out, notes)
}

/// Puts the bytes of the ranges end to end at the front of the output, and returns their number.
pub fn extract_byte_ranges_concat(
    bytes: &[u8],
    ranges: &[ByteRange],
    out: &mut [u8],
) -> Result<usize, ExtractError>
    ensures answer { told extract_refusal result ≡ unless (concat_no bytes.now ranges.now (length out.old)) (length (items bytes.now ranges.now)) }
    ensures out { out.new ≡ (if is_ok result then fronted (items bytes.now ranges.now) out.old else out.old) }
{
    let size = bytes.len();
    check_ranges(ranges, size)?;
    let total = check_room(bytes, ranges, out.len())?;
    copy_ranges(bytes, ranges, out);
    Ok(total)
}

/// Like `extract_byte_ranges`, but a range that does not fit picks nothing, and its note is its fault.
pub fn read_byte_ranges(
    bytes: &[u8],
    ranges: &[ByteRange],
    out: &mut [u8],
    notes: &mut [Note],
) -> Result<usize, ExtractError>
    ensures answer { told extract_refusal result ≡ unless (read_no bytes.now ranges.now (length out.old) (length notes.old)) (length (items bytes.now ranges.now)) }
    ensures out { out.new ≡ (if is_ok result then fronted (items bytes.now ranges.now) out.old else out.old) }
    ensures notes { notes.new ≡ (if is_ok result then fronted (notes_from 0 bytes.now ranges.now) notes.old else notes.old) }
{
    if ranges.len() > MAX_RANGES {
        return Err(ExtractError::TooMany);
    }
    let n = check_room(bytes, ranges, out.len())?;
    if notes.len() < ranges.len() {
        return Err(ExtractError::Short);
    }
    copy_ranges(bytes, ranges, out);
    note_ranges(bytes, ranges, notes);
    Ok(n)
}

// The bytes of a range that fits.
fn cut(bytes: &[u8], range: ByteRange) -> &[u8]
    requires { fitting range (length bytes.now) ≡ true }
    ensures { result.now ≡ inside bytes.now range }
{
    let n = bytes.len();
    match range {
        ByteRange::FromStart(offset, None) => &bytes[offset as usize..n],
        ByteRange::FromStart(offset, Some(length)) => &bytes[offset as usize..(offset
            + length) as usize],
        ByteRange::Suffix(length) => &bytes[n - length as usize..n],
    }
}

// Does the range fit, and is there room for its bytes?
fn check_range(bytes: &[u8], range: ByteRange, space: usize) -> Result<usize, ExtractError>
    ensures { told extract_refusal result ≡ unless (one_no bytes.now range space) (length (picked bytes.now range)) }
{
    let n = pick(bytes, range)?.len();
    if space < n {
        return Err(ExtractError::Short);
    }
    Ok(n)
}

// Are there at most 64 ranges, and does each fit `n` bytes?
fn check_ranges(ranges: &[ByteRange], n: usize) -> Result<(), ExtractError>
    ensures { told extract_refusal result ≡ unless (ranges_no n ranges.now) tt }
{
    if ranges.len() > MAX_RANGES {
        return Err(ExtractError::TooMany);
    }
    check_fit(ranges, n)
}

// Does each range fit?
fn check_fit(ranges: &[ByteRange], n: usize) -> Result<(), ExtractError>
    ensures { told extract_refusal result ≡ unless (all_fit n 0 ranges.now) tt }
{
    let size = n as u64;
    for (i, range) in ranges.iter().enumerate() {
        if !range.fits(size) {
            return Err(ExtractError::Unfit(
                i,
                InvalidByteRangeError {
                    range: *range,
                    size,
                },
            ));
        }
    }
    Ok(())
}

// Is there room for the picked bytes?
fn check_room(bytes: &[u8], ranges: &[ByteRange], space: usize) -> Result<usize, ExtractError>
    ensures { told extract_refusal result ≡ unless (room space (length (items bytes.now ranges.now))) (length (items bytes.now ranges.now)) }
{
    match picked_total(bytes, ranges) {
        Some(n) if n <= space => Ok(n),
        _ => Err(ExtractError::Short),
    }
}

// How many bytes the ranges pick; none where that leaves `usize`.
fn picked_total(bytes: &[u8], ranges: &[ByteRange]) -> Option<usize>
    ensures { result ≡ in_u64 (length (items bytes.now ranges.now)) }
{
    let mut total: usize = 0;
    for range in ranges {
        total = total.checked_add(picked_len(bytes, *range))?;
    }
    Some(total)
}

fn picked_len(bytes: &[u8], range: ByteRange) -> usize
    ensures { result ≡ length (picked bytes.now range) }
{
    match pick(bytes, range) {
        Ok(part) => part.len(),
        Err(_) => 0,
    }
}

// Puts the picked bytes of the ranges end to end at the front of the output.
fn copy_ranges(bytes: &[u8], ranges: &[ByteRange], out: &mut [u8])
    requires { length (items bytes.now ranges.now) ≤ length out.old }
    ensures { out.new ≡ fronted (items bytes.now ranges.now) out.old }
{
    let mut at = 0;
    for range in ranges {
        at = copy_range(bytes, *range, out, at);
    }
}

// Puts the picked bytes of a range at a place of the output, and returns where they end.
fn copy_range(bytes: &[u8], range: ByteRange, out: &mut [u8], at: usize) -> usize
    requires { at + length (picked bytes.now range) ≤ length out.old }
    ensures end { result ≡ at + length (picked bytes.now range) }
    ensures out { out.new ≡ paste out.old at (picked bytes.now range) (length (picked bytes.now range)) }
{
    match pick(bytes, range) {
        Ok(part) => {
            let end = at + part.len();
            out[at..end].copy_from_slice(part);
            end
        }
        Err(_) => at,
    }
}

// Puts the picked bytes of a range at the front of the output.
fn copy_front(bytes: &[u8], range: ByteRange, out: &mut [u8])
    requires { length (picked bytes.now range) ≤ length out.old }
    ensures { out.new ≡ fronted (picked bytes.now range) out.old }
{
    let _end = copy_range(bytes, range, out, 0);
}

// Writes the notes of the ranges at the front of the notes.
fn note_ranges(bytes: &[u8], ranges: &[ByteRange], notes: &mut [Note])
    requires fit { length (items bytes.now ranges.now) < 2 ^ 64 }
    requires space { length ranges.now ≤ length notes.old }
    ensures { notes.new ≡ fronted (notes_from 0 bytes.now ranges.now) notes.old }
{
    let mut at: usize = 0;
    for (i, range) in ranges.iter().enumerate() {
        notes[i] = note_of(bytes, *range, at);
        at += picked_len(bytes, *range);
    }
}

fn note_of(bytes: &[u8], range: ByteRange, start: usize) -> Note
    ensures { result ≡ note_at start bytes.now range }
{
    let part = pick(bytes, range)?;
    Ok(Place {
        start,
        len: part.len(),
    })
}
