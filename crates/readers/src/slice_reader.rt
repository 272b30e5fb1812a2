//! A reader over the caller's bytes.
ghost use Rattle.std.specs.Prelude.{◌≡◌, Some};
ghost use Rattle.ranges.specs.Refusals.{valued};
ghost use Rattle.readers.specs.Parts.{part_of};

use crate::reader::Reader;
use crate::reader::calls::{Read, Seek};
use crate::reader_fault::ReaderFault;
use crate::seek_from::SeekFrom;
use extraction::pick;
use ranges::byte_range::ByteRange;
use storage::fault::Fault;

/// Bytes that are read where they lie, with a position.
#[derive(Clone, Copy)]
pub struct SliceReader<'a> {
    bytes: &'a [u8],
    position: u64,
}

impl<'a> SliceReader<'a> {
    /// A reader at the first byte.
    pub fn new(bytes: &'a [u8]) -> Self
        ensures value { result.bytes.now ≡ bytes.now }
        ensures place { result.position ≡ 0 }
    {
        SliceReader { bytes, position: 0 }
    }
}

impl<'a> Reader for SliceReader<'a> {
    ghost value = { λ s. Some s.bytes.now };

    ghost position = { λ s. s.position };

    ghost at = { λ s p. record { bytes = s.bytes; position = p } };
}

impl<'a> Seek for SliceReader<'a> {
    fn seek(&mut self, from: SeekFrom) -> Result<u64, ReaderFault> {
        let size = self.bytes.len() as u64;
        self.position = from.place(Some(size), self.position)?;
        Ok(self.position)
    }
}

impl<'a> Read for SliceReader<'a> {
    fn read_exact(&mut self, out: &mut [u8]) -> Result<(), ReaderFault> {
        if out.is_empty() {
            return Ok(());
        }
        let part = part(self.bytes, self.position, out.len())?;
        out.copy_from_slice(part);
        self.position += out.len() as u64;
        Ok(())
    }
}

// The `n` bytes from `position` on.
fn part(bytes: &[u8], position: u64, n: usize) -> Result<&[u8], Fault>
    ensures { valued result ≡ part_of bytes.now position n }
{
    Ok(pick(bytes, ByteRange::FromStart(position, Some(n as u64)))?)
}
