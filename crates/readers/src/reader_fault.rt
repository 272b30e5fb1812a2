//! Refusals of a reader.
ghost use Rattle.std.specs.Prelude.{◌≡◌};
ghost use Rattle.readers.specs.ReaderFaults.{read_number, refused, refused_at, from_store};

use storage::fault::Fault;

/// Why a reader's call was refused. The definition `read_number` gives each case its number.
#[derive(Clone, Copy)]
pub enum ReadCause {
    /// The value does not exist (5).
    Absent,
    /// More than 64 ranges (6).
    Limit,
    /// The output or the notes are too short (9).
    Short,
    /// A seek starts or finishes outside of 0 to 2^63 - 1 (13).
    Seek,
    /// Fewer bytes are left than are to be read, with the store's fault (14).
    End(Fault),
}

/// A refusal: its cause, and the item's index in a list (0 without one).
#[derive(Clone, Copy)]
pub struct ReaderFault {
    pub cause: ReadCause,
    pub index: usize,
}

impl ReadCause {
    /// The number of this cause.
    pub fn number(&self) -> u8
        ensures { result ≡ read_number self.now }
    {
        match self {
            ReadCause::Absent => 5,
            ReadCause::Limit => 6,
            ReadCause::Short => 9,
            ReadCause::Seek => 13,
            ReadCause::End(_) => 14,
        }
    }
}

impl ReaderFault {
    /// A refusal of no item.
    pub fn own(cause: ReadCause) -> ReaderFault
        ensures { result ≡ refused cause }
    {
        ReaderFault { cause, index: 0 }
    }

    /// This refusal, of the item at an index.
    pub fn at_item(self, index: usize) -> ReaderFault
        ensures { result ≡ refused_at index self.cause }
    {
        ReaderFault { index, ..self }
    }
}

/// A store's fault, held whole: fewer bytes are left than are to be read.
impl From<Fault> for ReaderFault {
    ghost from_gives = { λ f r. r ≡ from_store f };

    fn from(f: Fault) -> ReaderFault {
        ReaderFault::own(ReadCause::End(f))
    }
}
