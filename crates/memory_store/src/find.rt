//! A key's place among the slots.

ghost use Rattle.std.specs.Prelude.{◌≡◌, true};
ghost use Rattle.keys.specs.StoreKeys.{text};
ghost use Rattle.storage.specs.Contents.{ascending};
ghost use Rattle.memory_store.specs.Slots.{slot_keys, Placed};

use crate::slot::Slot;
use keys::store_key::StoreKey;
use order::total_order::TotalOrder;
use std::cmp::Ordering;

/// The index of the key, or its place where it is not there.
pub(crate) fn find(slots: &[Slot], key: &StoreKey) -> Result<usize, usize>
    requires { ascending (slot_keys slots.now) ≡ true }
    ensures { Placed (text key.now) slots.now result }
{
    // written out, since `binary_search_by` goes on when it has met the key
    let mut low = 0;
    let mut high = slots.len();
    while low < high {
        let mid = low + (high - low) / 2;
        match slots[mid].key.compare(key) {
            Ordering::Less => low = mid + 1,
            Ordering::Equal => return Ok(mid),
            Ordering::Greater => high = mid,
        }
    }
    Err(low)
}
