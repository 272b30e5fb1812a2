//! The calls of readers, in the place of Rust's `Seek` and `Read`.
ghost use Rattle.std.specs.Prelude.{◌≡◌, length};
ghost use Rattle.storage.specs.Contents.{sized};
ghost use Rattle.readers.specs.Readers.{sought, reached, advanced, FilledBy};
ghost use Rattle.readers.specs.Moves.{MovedTo};

use super::Reader;
use crate::reader_fault::ReaderFault;
use crate::seek_from::SeekFrom;

/// What can be sought in.
pub trait Seek: Reader {
    /// Sets the position, counted from the start, the end or the current place, and answers it.
    fn seek(&mut self, from: SeekFrom) -> Result<u64, ReaderFault>
        ensures answer { result ≡ sought (sized (Self.Reader.value self.old)) (Self.Reader.position self.old) from }
        ensures place { MovedTo Self.Reader (reached (Self.Reader.position self.old) result) self.old self.new };
}

/// What can be read from.
pub trait Read: Reader {
    /// Fills the buffer with the bytes from the position on, and goes on behind them.
    fn read_exact(&mut self, out: &mut [u8]) -> Result<(), ReaderFault>
        ensures filled { FilledBy (Self.Reader.value self.old) (Self.Reader.position self.old) result out.old out.new }
        ensures place { MovedTo Self.Reader (advanced (Self.Reader.position self.old) (length out.old) result) self.old self.new };
}
