//! A list of ranges to read: in order, without repeats, at most 64.
ghost use Rattle.std.specs.Prelude.{◌≡◌, ◌≤◌, length, take};
ghost use Rattle.std.proofs.Props.{props};
ghost use Rattle.std.specs.List.Sorted.{IsStrictlySortedBy};
ghost use Rattle.ranges.specs.Orders.{compare_ranges};

use crate::byte_range::ByteRange;

mod methods;

/// The most ranges that a read list holds.
pub const MAX_READS: usize = 64;

/// A read list: the first `len` ranges, each before those behind it.
#[derive(Clone, Copy)]
pub struct ReadList {
    ranges: [ByteRange; 64],
    len: usize,
    ghost sized: { length ranges ≡ 64 },
    ghost within: { len ≤ 64 },
    ghost ascends: { IsStrictlySortedBy compare_ranges (take len ranges) } by { Prim.hlevel props },
}
