//! What comes of a call.
use extraction::ExtractError;
use ranges::byte_range::{ByteRange, InvalidByteRangeError};
use std::alloc::{AllocError, Global};
use std::cmp::Ordering;
use std::fmt;

/// How the port refuses a call.
#[derive(Clone, Copy)]
pub enum Refusal {
    Plain,
    /// A range of an extraction does not fit.
    Unfit(InvalidByteRangeError),
}

/// Why there is no answer to a call.
#[derive(Drop)]
pub enum Failure {
    /// The port refuses it.
    Refused(Refusal),
    /// It is none that is compared.
    Unknown,
    /// There is no memory for the answer.
    Memory(AllocError),
}

/// The words of the port's answer, or why there is none.
pub type Outcome = Result<Vec<u8>, Failure>;

/// A range as a vector has it.
#[derive(Clone, Copy)]
pub struct ShownRange(pub ByteRange);

impl fmt::Display for ShownRange {
    fn fmt<W: fmt::Write>(&self, f: &mut fmt::Formatter<W>) -> fmt::Result {
        match self.0 {
            ByteRange::FromStart(offset, Some(length)) => write!(f, "f:{offset}:{length}"),
            ByteRange::FromStart(offset, None) => write!(f, "f:{offset}:-"),
            ByteRange::Suffix(length) => write!(f, "s:{length}"),
        }
    }
}

impl fmt::Display for Refusal {
    fn fmt<W: fmt::Write>(&self, f: &mut fmt::Formatter<W>) -> fmt::Result {
        match *self {
            Refusal::Plain => f.write_str("refused"),
            Refusal::Unfit(InvalidByteRangeError { range, size }) => {
                let range = ShownRange(range);
                write!(f, "fault {range} {size}")
            }
        }
    }
}

impl From<AllocError> for Failure {
    fn from(error: AllocError) -> Self {
        Failure::Memory(error)
    }
}

impl From<ExtractError> for Failure {
    fn from(error: ExtractError) -> Self {
        match error {
            ExtractError::Unfit(_, unfit) => Failure::Refused(Refusal::Unfit(unfit)),
            _ => Failure::Refused(Refusal::Plain),
        }
    }
}

/// What was made, or a refusal.
pub fn accepted<T, E: Drop>(made: Result<T, E>) -> Result<T, Failure> {
    made.ok().ok_or(Failure::Refused(Refusal::Plain))
}

/// An answer of these words.
pub fn answered(words: &[u8], heap: Global) -> Outcome {
    Ok(Vec::from_slice(heap, words)?)
}

/// An answer that is shown.
pub fn shown<D: fmt::Display + Drop>(answer: D, heap: Global) -> Outcome {
    Ok(format!(in heap; "{answer}")?.into_bytes())
}

/// An order.
pub fn ordered(order: Ordering, heap: Global) -> Outcome {
    match order {
        Ordering::Less => answered(b"less", heap),
        Ordering::Equal => answered(b"equal", heap),
        Ordering::Greater => answered(b"greater", heap),
    }
}
