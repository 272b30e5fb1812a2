//! Calls on byte ranges, and extractions.
use crate::fields::{bytes_of, cut, number_of, write_bytes, written};
use crate::outcome::{Failure, Outcome, Refusal, ShownRange, accepted, ordered, shown};
use extraction::{Note, Place, extract_byte_ranges, extract_byte_ranges_concat};
use order::total_order::TotalOrder;
use ranges::byte_range::{Bound, ByteRange, InvalidByteRangeError};
use std::alloc::{AllocError, Global};

/// What is asked of a range.
#[derive(Clone, Copy)]
pub enum RangeCall {
    /// The range of two bounds.
    New,
    Start,
    End,
    Length,
    Order,
}

/// What is asked of a value.
#[derive(Clone, Copy)]
pub enum ValueCall {
    /// The bytes of ranges, each apart.
    Extract,
    /// The bytes of ranges, end to end.
    Concat,
}

/// The range that a word stands for.
fn range_of(word: &[u8]) -> Option<ByteRange> {
    let (kind, rest) = cut(word, b':');
    if kind == b"s".as_slice() {
        return Some(ByteRange::Suffix(number_of(rest)?));
    }
    let (offset, length) = cut(rest, b':');
    let offset = number_of(offset)?;
    match length {
        b"-" => Some(ByteRange::FromStart(offset, None)),
        _ => Some(ByteRange::FromStart(offset, Some(number_of(length)?))),
    }
}

/// The bound that a word stands for.
fn bound_of(word: &[u8]) -> Option<Bound<u64>> {
    let (kind, rest) = cut(word, b':');
    match kind {
        b"u" => Some(Bound::Unbounded),
        b"i" => number_of(rest).map(Bound::Included),
        _ => number_of(rest).map(Bound::Excluded),
    }
}

/// The ranges of a list; those that can't be read are left out.
fn ranges_of(list: &[u8], heap: Global) -> Result<Vec<ByteRange>, AllocError> {
    list.split(|b| *b == b',')
        .filter_map(range_of)
        .collect(heap)
}

/// A number of a range in a value of a size.
fn measured<F: FnOnce(&ByteRange, u64) -> Result<u64, InvalidByteRangeError>>(
    range: &[u8],
    size: &[u8],
    heap: Global,
    measure: F,
) -> Outcome
    requires { F.IsAlwaysCallable measure }
{
    let range = range_of(range).ok_or(Failure::Unknown)?;
    let size = number_of(size).ok_or(Failure::Unknown)?;
    shown(accepted(measure(&range, size))?, heap)
}

impl RangeCall {
    /// The call of that name.
    pub fn named(name: &[u8]) -> Option<Self> {
        match name {
            b"new" => Some(RangeCall::New),
            b"start" => Some(RangeCall::Start),
            b"end" => Some(RangeCall::End),
            b"length" => Some(RangeCall::Length),
            b"range_order" => Some(RangeCall::Order),
            _ => None,
        }
    }

    /// The port's answer.
    pub fn answer(self, words: &[u8], heap: Global) -> Outcome {
        let (first, second) = cut(words, b' ');
        match self {
            RangeCall::New => {
                let start = bound_of(first).ok_or(Failure::Unknown)?;
                let end = bound_of(second).ok_or(Failure::Unknown)?;
                shown(ShownRange(accepted(ByteRange::new(start, end))?), heap)
            }
            RangeCall::Start => measured(first, second, heap, ByteRange::start),
            RangeCall::End => measured(first, second, heap, ByteRange::end),
            RangeCall::Length => measured(first, second, heap, ByteRange::length),
            RangeCall::Order => {
                let range = range_of(first).ok_or(Failure::Unknown)?;
                let other = range_of(second).ok_or(Failure::Unknown)?;
                ordered(range.compare(&other), heap)
            }
        }
    }
}

impl ValueCall {
    /// The call of that name.
    pub fn named(name: &[u8]) -> Option<Self> {
        match name {
            b"extract" => Some(ValueCall::Extract),
            b"concat" => Some(ValueCall::Concat),
            _ => None,
        }
    }

    /// The port's answer.
    pub fn answer(self, words: &[u8], heap: Global) -> Outcome {
        let (value, list) = cut(words, b' ');
        let value = bytes_of(value, heap)?;
        let ranges = ranges_of(list, heap)?;
        match self {
            ValueCall::Extract => extract(value.as_slice(), ranges.as_slice(), heap),
            ValueCall::Concat => concat(value.as_slice(), ranges.as_slice(), heap),
        }
    }
}

/// The items that notes place in a buffer, as they are written.
fn items(buffer: &[u8], notes: &[Note], heap: Global) -> Result<Vec<u8>, AllocError> {
    let mut out = Vec::new(heap);
    if notes.is_empty() {
        out.push(b'.')?;
    }
    for (i, note) in notes.iter().enumerate() {
        if i > 0 {
            out.push(b',')?;
        }
        if let Ok(Place { start, len }) = *note {
            if start <= buffer.len() && len <= buffer.len() - start {
                write_bytes(&mut out, &buffer[start..start + len])?;
            }
        }
    }
    Ok(out)
}

/// The answer to an extraction.
fn extract(value: &[u8], ranges: &[ByteRange], heap: Global) -> Outcome {
    let mut buffer = vec![in heap; 0u8; value.len().saturating_mul(ranges.len())]?;
    let mut notes = vec![in heap; Ok(Place { start: 0, len: 0 }); ranges.len()]?;
    extract_byte_ranges(value, ranges, buffer.as_mut_slice(), notes.as_mut_slice())?;
    Ok(items(buffer.as_slice(), notes.as_slice(), heap)?)
}

/// The answer to an extraction without notes.
fn concat(value: &[u8], ranges: &[ByteRange], heap: Global) -> Outcome {
    let mut buffer = vec![in heap; 0u8; value.len().saturating_mul(ranges.len())]?;
    let n = extract_byte_ranges_concat(value, ranges, buffer.as_mut_slice())?;
    match buffer.as_slice().get(..n) {
        Some(bytes) => Ok(written(bytes, heap)?),
        None => Err(Failure::Refused(Refusal::Plain)),
    }
}
