ghost use Rattle.std.specs.Prelude.{◌≡◌, [], length};
ghost use Rattle.std.specs.List.{slice_get};
ghost use Rattle.std.specs.List.Sorted.{IsStrictlySortedBy};
ghost use Rattle.ranges.specs.Orders.{compare_ranges};
ghost use Rattle.ranges.specs.ReadLists.{reads, Added};

use super::ReadList;
use crate::byte_range::ByteRange;
use order::sorted_list::{SortedListError, insert_sorted};

impl ReadList {
    /// A list without ranges.
    pub fn new() -> ReadList
        ensures { reads result ≡ [] }
    {
        ReadList {
            ranges: [ByteRange::FromStart(0, None); 64],
            len: 0,
        }
    }

    /// Adds a range at its place in the order; one that is there already changes nothing.
    pub fn add(&mut self, range: ByteRange) -> Result<(), SortedListError>
        ensures { Added (reads self.old) range (reads self.new) result }
    {
        self.insert(range)
    }

    fn insert(&mut self, range: ByteRange) -> Result<(), SortedListError>
        ensures { Added (reads self.old) range (reads self.new) result }
    {
        self.len = insert_sorted(&mut self.ranges, self.len, range)?;
        Ok(())
    }

    /// How many ranges there are.
    pub fn len(&self) -> usize
        ensures { result ≡ length (reads self.now) }
    {
        self.as_slice().len()
    }

    /// The range at an index, in ascending order; none past the last.
    pub fn get(&self, i: usize) -> Option<ByteRange>
        ensures { result ≡ slice_get (reads self.now) i }
    {
        self.as_slice().get(i).copied()
    }

    /// The ranges, in ascending order.
    pub fn as_slice(&self) -> &[ByteRange]
        ensures value { result.now ≡ reads self.now }
        ensures ascends { IsStrictlySortedBy compare_ranges result.now }
    {
        &self.ranges[..self.len]
    }
}
