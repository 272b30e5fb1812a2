//! The stored keys and their values.

ghost use Rattle.std.specs.Prelude.{◌≡◌, ◌≤◌, true, vec_len, vec_capacity};
ghost use Rattle.std.specs.List.{sum_by};
ghost use Rattle.storage.specs.Contents.{ascending};
ghost use Rattle.memory_store.specs.Slots.{slot_keys, lens};

use crate::find::find;
use crate::memory_store::{MAX_BYTES, MAX_KEYS};
use crate::row::{insert_bytes, overwrite, remove_bytes};
use crate::slot::Slot;
use keys::store_key::StoreKey;
use keys::store_prefix::StorePrefix;
use patches::{Patch, PatchError, lay_patches};
use std::alloc::{AllocError, Global};
use storage::fault::{Cause, Fault};

/// At most 64 keys in ascending order, and their values, at most 32,768 bytes, packed in the same order.
///
/// All memory is reserved when it is made, so that no call allocates.
#[derive(Drop)]
pub(crate) struct Table {
    slots: Vec<Slot>,
    row: Vec<u8>,
    ghost few: { vec_len slots ≤ 64 },
    ghost small: { vec_len row ≤ 32768 },
    ghost room: { (64 ≤ vec_capacity slots) × (32768 ≤ vec_capacity row) },
    ghost ordered: { ascending (slot_keys slots.items) ≡ true },
    ghost packed: { lens slots.items ≡ vec_len row },
}

impl Table {
    ghost use Rattle.std.specs.Prelude.{◌≡◌, ◌+◌, ◌<◌, ◌≤◌, ◌++◌, [], length, take, drop, IfOk, Ok, vec_len, slice_index_or};
    ghost use Rattle.std.specs.List.{slice_get};
    ghost use Rattle.std.specs.Option.{option_map};
    ghost use Rattle.ranges.specs.Refusals.{told, unless};
    ghost use Rattle.patches.specs.Patches.{patch_refusal, laid_all, lay_no};
    ghost use Rattle.keys.specs.StoreKeys.{text};
    ghost use Rattle.keys.specs.StorePrefixes.{prefix_text};
    ghost use Rattle.storage.specs.Contents.{found, bytes_of, keys_of, put, without, same, under};
    ghost use Rattle.memory_store.specs.Slots.{lens, GapAt, Placed};
    ghost use Rattle.memory_store.specs.Tables.{Replaced, Kept, tabled};

    /// An empty table. Want of memory is met here or never.
    pub(crate) fn new(heap: Global) -> Result<Self, AllocError>
        ensures { IfOk result (λ t. tabled t ≡ []) }
    {
        let slots = Vec::with_capacity(heap, MAX_KEYS)?;
        let row = Vec::with_capacity(heap, MAX_BYTES)?;
        Ok(Table { slots, row })
    }

    /// The value under `key`.
    pub(crate) fn value(&self, key: &StoreKey) -> Option<&[u8]>
        ensures { option_map (λ x. x.now) result ≡ found (text key.now) (tabled self.now) }
    {
        let i = find(self.slots.as_slice(), key).ok()?;
        let at = self.start_of(i);
        let len = self.slots[i].len;
        Some(&self.row.as_slice()[at..at + len])
    }

    /// The `n`-th key.
    pub(crate) fn key_at(&self, n: usize) -> Option<StoreKey>
        ensures { option_map text result ≡ slice_get (keys_of (tabled self.now)) n }
    {
        self.slots.get(n).map(|slot| slot.key)
    }

    /// Puts `value` under `key`, in place of the value there, if there is room.
    pub(crate) fn replace(&mut self, key: &StoreKey, value: &[u8]) -> Result<(), Fault>
        ensures { Replaced result (text key.now) value.now self.old self.new }
    {
        match find(self.slots.as_slice(), key) {
            Ok(i) => self.replace_at(i, key, value),
            Err(i) => self.insert_at(i, key, value),
        }
    }

    /// Takes `key` out, if it is there.
    pub(crate) fn remove(&mut self, key: &StoreKey)
        ensures { tabled self.new ≡ without (λ j. same j (text key.now)) (tabled self.old) }
    {
        if let Ok(i) = find(self.slots.as_slice(), key) {
            self.take_out(i);
        }
    }

    /// Takes every key out that begins with the prefix.
    pub(crate) fn remove_prefix(&mut self, prefix: &StorePrefix)
        ensures { tabled self.new ≡ without (under (prefix_text prefix.now)) (tabled self.old) }
    {
        for i in (0..self.slots.len()).rev() {
            if self.slots[i].key.has_prefix(prefix) {
                self.take_out(i);
            }
        }
    }

    /// Copies the value under `key` to the front of `out`, and answers its length.
    pub(crate) fn copy_out(&self, key: &StoreKey, out: &mut [u8]) -> Option<usize>
        requires { length out.old ≡ 32768 }
        ensures { Kept result (found (text key.now) (tabled self.now)) out.new }
    {
        let value = self.value(key)?;
        overwrite(out, 0, value);
        Some(value.len())
    }

    /// Lays the patches on the value under `key`, or on nothing where it is not there, at the front of `out`; answers the new length.
    pub(crate) fn patched(
        &self,
        key: &StoreKey,
        patches: &[Patch],
        source: &[u8],
        out: &mut [u8],
    ) -> Result<usize, PatchError>
        requires { length out.old ≡ 32768 }
        ensures answer { told patch_refusal result ≡ unless (lay_no source.now patches.now (bytes_of (found (text key.now) (tabled self.now))) 32768) (length (laid_all source.now patches.now (bytes_of (found (text key.now) (tabled self.now))))) }
        ensures front { IfOk result (λ n. take n out.new ≡ laid_all source.now patches.now (bytes_of (found (text key.now) (tabled self.now)))) }
    {
        let old = self.value(key).unwrap_or(&[]);
        lay_patches(old, patches, source, out)
    }

    /// Where the value of the `i`-th key begins in the row.
    fn start_of(&self, i: usize) -> usize
        requires { i ≤ vec_len self.now.slots }
        ensures { result ≡ lens (take i self.now.slots.items) }
    {
        bytes_in(&self.slots.as_slice()[..i])
    }

    /// Puts `value` under a key that is not there, at its place `i`, if there is room.
    fn insert_at(&mut self, i: usize, key: &StoreKey, value: &[u8]) -> Result<(), Fault>
        requires { Placed (text key.now) self.old.slots.items (Err i) }
        ensures { Replaced result (text key.now) value.now self.old self.new }
    {
        if self.slots.len() == MAX_KEYS || value.len() > MAX_BYTES - self.row.len() {
            return Err(Fault::own(Cause::Full));
        }
        self.put_in(i, key, value);
        Ok(())
    }

    /// Puts `value` under the key at `i`, in place of the value there, if there is room.
    fn replace_at(&mut self, i: usize, key: &StoreKey, value: &[u8]) -> Result<(), Fault>
        requires { Placed (text key.now) self.old.slots.items (Ok i) }
        ensures { Replaced result (text key.now) value.now self.old self.new }
    {
        let used = self.row.len() - self.slots[i].len;
        if value.len() > MAX_BYTES - used {
            return Err(Fault::own(Cause::Full));
        }
        self.take_out(i);
        self.put_in(i, key, value);
        Ok(())
    }

    /// Puts a key that is not there in at its place `i`, with its value.
    fn put_in(&mut self, i: usize, key: &StoreKey, value: &[u8])
        requires place { Placed (text key.now) self.old.slots.items (Err i) }
        requires room { (vec_len self.old.slots < 64) × (vec_len self.old.row + length value.now ≤ 32768) }
        ensures { tabled self.new ≡ put (text key.now) value.now (tabled self.old) }
    {
        let at = self.start_of(i);
        insert_bytes(&mut self.row, at, value);
        let slot = Slot {
            key: *key,
            len: value.len(),
        };
        // the capacity suffices, so that this is no refusal
        let _ = self.slots.insert(i, slot);
    }

    /// Takes the key at `i` out, with its value.
    fn take_out(&mut self, i: usize) -> Slot
        requires { i < vec_len self.old.slots }
        ensures value { result ≡ slice_index_or self.old.slots.items i result }
        ensures slots { self.new.slots.items ≡ take i self.old.slots.items ++ drop (i + 1) self.old.slots.items }
        ensures contents { tabled self.new ≡ without (λ j. same j (text result.key)) (tabled self.old) }
        ensures place { GapAt (text result.key) i self.new.slots.items }
        ensures sizes { (vec_len self.new.slots + 1 ≡ vec_len self.old.slots) × (vec_len self.new.row + result.len ≡ vec_len self.old.row) }
    {
        let at = self.start_of(i);
        let slot = self.slots.remove(i);
        remove_bytes(&mut self.row, at, slot.len);
        slot
    }
}

/// How many bytes the values of these keys have together.
fn bytes_in(slots: &[Slot]) -> usize
    requires { sum_by (λ s. s.len) slots.now ≤ 32768 }
    ensures { result ≡ sum_by (λ s. s.len) slots.now }
{
    slots.iter().map(|slot| slot.len).sum()
}
