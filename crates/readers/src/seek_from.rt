//! Seeks, and the places that they name.
ghost use Rattle.std.specs.Prelude.{◌≡◌};
ghost use Rattle.readers.specs.Readers.{sought, shifted};

use crate::reader_fault::{ReadCause, ReaderFault};

/// The last place that a seek from the current place or the end starts or finishes at.
pub const MAX_SEEK: u64 = 9223372036854775807;

/// Where a seek counts from.
#[derive(Clone, Copy)]
pub enum SeekFrom {
    /// From the start of the value.
    Start(u64),
    /// From its end.
    End(i64),
    /// From the current place.
    Current(i64),
}

impl SeekFrom {
    /// The place that a seek names, in a value of that size if there is one, at that position.
    pub fn place(self, size: Option<u64>, position: u64) -> Result<u64, ReaderFault>
        ensures { result ≡ sought size position self }
    {
        match self {
            SeekFrom::Start(place) => Ok(place),
            SeekFrom::Current(offset) => shift(position, offset),
            SeekFrom::End(offset) => {
                let size = size.ok_or(ReaderFault::own(ReadCause::Absent))?;
                shift(size, offset)
            }
        }
    }
}

// The place at an offset from another.
fn shift(start: u64, offset: i64) -> Result<u64, ReaderFault>
    ensures { result ≡ shifted start offset }
{
    if start > MAX_SEEK {
        return Err(ReaderFault::own(ReadCause::Seek));
    }
    match start.checked_add_signed(offset) {
        Some(place) if place <= MAX_SEEK => Ok(place),
        _ => Err(ReaderFault::own(ReadCause::Seek)),
    }
}
