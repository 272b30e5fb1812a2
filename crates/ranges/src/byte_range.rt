//! Byte ranges.
//!
//! A `ByteRange` represents a byte range relative to the start or end of a byte sequence.
//! A byte range has an offset and optional length, which if omitted means all remaining bytes.
ghost use Rattle.std.specs.Prelude.{◌≡◌, Decides};
ghost use Rattle.std.specs.Option.{ok_or};
ghost use Rattle.ranges.specs.Ranges.{start_of, end_of, length_of, span_of, bounded, spanning, fitting, Fits};
ghost use Rattle.ranges.specs.Orders.{compare_ranges};
ghost use Rattle.ranges.specs.Refusals.{told, bounds_refusal, range_refusal, refusal, unfit};
ghost use Rattle.ranges.specs.RangeOrder.{ranges_equal, ranges_total, ranges_transitive};

use order::total_order::TotalOrder;
use std::cmp::Ordering;
pub use std::ops::Bound;

/// A byte offset.
pub type ByteOffset = u64;

/// A byte length.
pub type ByteLength = u64;

/// A byte range. A range from the start comes before a suffix; then the lower offset, no length before any, the lower length.
#[derive(Clone, Copy, PartialEq, Eq, PartialOrd, Ord)]
pub enum ByteRange {
    /// A byte range from the start. If the byte length is `None`, it reaches to the end of the value.
    FromStart(ByteOffset, Option<ByteLength>),
    /// A suffix byte range.
    Suffix(ByteLength),
}

/// The start and the exclusive end of a byte range.
#[derive(Clone, Copy, PartialEq, Eq)]
pub struct Range {
    pub start: ByteOffset,
    pub end: ByteOffset,
}

/// Two bounds that give no range within `u64`.
#[derive(Clone, Copy, PartialEq, Eq)]
pub enum BoundsError {
    OutOfBounds,
}

/// An invalid byte range, with the size of the bytes that it was asked of.
#[derive(Clone, Copy, PartialEq, Eq)]
pub struct InvalidByteRangeError {
    pub range: ByteRange,
    pub size: ByteLength,
}

impl BoundsError {
    /// The number of this refusal.
    pub fn number(&self) -> u8
        ensures { result ≡ (bounds_refusal self.now).number }
    {
        match self {
            BoundsError::OutOfBounds => 6,
        }
    }
}

impl InvalidByteRangeError {
    /// The number of this refusal.
    pub fn number(&self) -> u8
        ensures { result ≡ (range_refusal self.now).number }
    {
        match self {
            InvalidByteRangeError { .. } => 4,
        }
    }
}

impl ByteRange {
    /// A byte range from two bounds, or a refusal where a step of the arithmetic leaves `u64`.
    pub fn new(start: Bound<u64>, end: Bound<u64>) -> Result<ByteRange, BoundsError>
        ensures { told bounds_refusal result ≡ ok_or (bounded start end) (refusal 6) }
    {
        from_bounds(start, end).ok_or(BoundsError::OutOfBounds)
    }

    /// The start of a byte range. `size` is the size of the entire bytes.
    pub fn start(&self, size: u64) -> Result<u64, InvalidByteRangeError>
        ensures { told range_refusal result ≡ ok_or (start_of self.now size) (unfit 0 self.now size) }
    {
        match *self {
            ByteRange::FromStart(offset, _) => Ok(offset),
            ByteRange::Suffix(length) => size.checked_sub(length).ok_or(self.invalid(size)),
        }
    }

    /// The exclusive end of a byte range. `size` is the size of the entire bytes.
    pub fn end(&self, size: u64) -> Result<u64, InvalidByteRangeError>
        ensures { told range_refusal result ≡ ok_or (end_of self.now size) (unfit 0 self.now size) }
    {
        match *self {
            ByteRange::FromStart(_, None) | ByteRange::Suffix(_) => Ok(size),
            ByteRange::FromStart(offset, Some(length)) => offset
                .checked_add(length)
                .ok_or(self.invalid(size)),
        }
    }

    /// The length of a byte range. `size` is the size of the entire bytes.
    pub fn length(&self, size: u64) -> Result<u64, InvalidByteRangeError>
        ensures { told range_refusal result ≡ ok_or (length_of self.now size) (unfit 0 self.now size) }
    {
        match *self {
            ByteRange::FromStart(offset, None) => size
                .checked_sub(offset)
                .ok_or(self.invalid(size)),
            ByteRange::FromStart(_, Some(length)) | ByteRange::Suffix(length) => Ok(length),
        }
    }

    /// Start and end of a byte range.
    pub fn to_range(&self, size: u64) -> Result<Range, InvalidByteRangeError>
        ensures { told range_refusal result ≡ ok_or (span_of self.now size) (unfit 0 self.now size) }
    {
        let start = self.start(size)?;
        let end = self.end(size)?;
        Ok(Range { start, end })
    }

    /// Whether the range lies inside `size` bytes.
    pub fn fits(&self, size: u64) -> bool
        ensures value { result ≡ fitting self.now size }
        ensures means { Decides result (Fits self.now size) }
    {
        match *self {
            ByteRange::FromStart(offset, None) => offset <= size,
            ByteRange::FromStart(offset, Some(length)) => offset <= size && length <= size - offset,
            ByteRange::Suffix(length) => length <= size,
        }
    }

    fn invalid(&self, size: u64) -> InvalidByteRangeError
        ensures { result ≡ record { range = self.now; size = size } }
    {
        InvalidByteRangeError { range: *self, size }
    }
}

impl TotalOrder for ByteRange {
    ghost compared = { compare_ranges };

    ghost total = { ranges_total };

    ghost transitive = { ranges_transitive };

    ghost equal = { ranges_equal };

    fn compare(&self, other: &ByteRange) -> Ordering {
        self.cmp(other)
    }
}

// What the two bounds give, step by step; none where a step leaves `u64`.
fn from_bounds(start: Bound<u64>, end: Bound<u64>) -> Option<ByteRange>
    ensures { result ≡ bounded start end }
{
    match (start, end) {
        (Bound::Included(s), Bound::Included(e)) => sized(
            Some(s),
            e.checked_sub(s)?.checked_add(1),
        ),
        (Bound::Included(s), Bound::Excluded(e)) => sized(Some(s), e.checked_sub(s)),
        (Bound::Included(s), Bound::Unbounded) => Some(ByteRange::FromStart(s, None)),
        (Bound::Excluded(s), Bound::Included(e)) => sized(s.checked_add(1), e.checked_sub(s)),
        (Bound::Excluded(s), Bound::Excluded(e)) => sized(
            s.checked_add(1),
            e.checked_sub(s)?.checked_sub(1),
        ),
        (Bound::Excluded(s), Bound::Unbounded) => Some(ByteRange::FromStart(
            s.checked_add(1)?,
            None,
        )),
        (Bound::Unbounded, Bound::Included(e)) => sized(Some(0), e.checked_add(1)),
        (Bound::Unbounded, Bound::Excluded(e)) => Some(ByteRange::FromStart(0, Some(e))),
        (Bound::Unbounded, Bound::Unbounded) => Some(ByteRange::FromStart(0, None)),
    }
}

// The range of that offset and length, where both are there.
fn sized(offset: Option<u64>, length: Option<u64>) -> Option<ByteRange>
    ensures { result ≡ spanning offset length }
{
    Some(ByteRange::FromStart(offset?, Some(length?)))
}
