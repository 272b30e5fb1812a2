ghost use Rattle.std.specs.Prelude.{◌≡◌, ◌≤◌, length};
ghost use Rattle.order.specs.SortedLists.{list_fault, Placed, Put, Inserted};

use crate::total_order::TotalOrder;
use std::cmp::Ordering;

/// Why a list does not take an element.
#[derive(Clone, Copy, PartialEq, Eq, Debug)]
pub enum SortedListError {
    /// No place is left for a new element.
    Full,
}

impl SortedListError {
    /// The number of this refusal.
    pub fn number(&self) -> u8
        ensures { result ≡ list_fault self.now }
    {
        match self {
            SortedListError::Full => 9,
        }
    }
}

/// Puts `x` into the sorted list without repeats that the first `len` of `items` are, and answers how many are in use then.
///
/// An element that is there already changes nothing. A new one that finds no place is refused, as is a `len` past the slice; `items` are then as they were.
pub fn insert_sorted<T: TotalOrder>(
    items: &mut [T],
    len: usize,
    x: T,
) -> Result<usize, SortedListError>
    ensures { Inserted T.TotalOrder.compared items.old len x items.new result }
{
    if len > items.len() {
        return Err(SortedListError::Full);
    }
    match find(items, len, &x) {
        Ok(_) => Ok(len),
        Err(place) => put(items, place, len, x),
    }
}

/// Where `x` stands among the first `len` of `items`, or where it would go, looking from the end.
fn find<T: TotalOrder>(items: &[T], len: usize, x: &T) -> Result<usize, usize>
    requires { len ≤ length items.now }
    ensures { Placed T.TotalOrder.compared items.now len x.now result }
{
    for (i, y) in items[..len].iter().enumerate().rev() {
        match x.compare(y) {
            Ordering::Less => {}
            Ordering::Equal => return Ok(i),
            Ordering::Greater => return Err(i + 1),
        }
    }
    Err(0)
}

/// Puts `x` at `place` among the first `len` of `items`, moving up by one what stands there and behind it, and answers how many are in use then.
fn put<T: Copy>(items: &mut [T], place: usize, len: usize, x: T) -> Result<usize, SortedListError>
    requires { (place ≤ len) × (len ≤ length items.old) }
    ensures { Put items.old place len x items.new result }
{
    if len == items.len() {
        return Err(SortedListError::Full);
    }
    items.copy_within(place..len, place + 1);
    items[place] = x;
    Ok(len + 1)
}
