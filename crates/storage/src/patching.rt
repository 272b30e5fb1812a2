//! Offset writes, written once over the interface.

ghost use Rattle.std.specs.Prelude.{◌≡◌, ◌≤◌, [], ◌∷◌, length, is_ok, if◌then◌else◌};
ghost use Rattle.keys.specs.StoreKeys.{text};
ghost use Rattle.ranges.specs.Buffers.{fronted};
ghost use Rattle.patches.specs.Patches.{lay_no};
ghost use Rattle.storage.specs.Faults.{answered};
ghost use Rattle.storage.specs.Writes.{patch_no, worked};
ghost use Rattle.storage.specs.Stores.{WroteAt, WrotePatched, patched_in, value_in};

use crate::fault::Fault;
use crate::reads::get;
use crate::storage_sync::ReadableStorageTraits;
use crate::storage_sync::writes::WritableStorageTraits;
use keys::store_key::StoreKey;
use patches::{Patch, check_patches, check_room, lay_patches_in_place};

/// Asks the questions of an offset write on the value under `key`, and, where it is not made in place, builds the new value at the front of `work`.
///
/// Every store and layer begins its offset writes so: what its verdict refuses then leaves the work buffer as the rule says.
pub fn begin_offset_write<S: ReadableStorageTraits>(
    store: &S,
    in_place: bool,
    key: &StoreKey,
    patches: &[Patch],
    source: &[u8],
    work: &mut [u8],
) -> Result<(), Fault>
    ensures answer { result ≡ answered (patch_no in_place source.now patches.now (value_in S.ReadableStorageTraits (text key.now) store.now) (length work.old)) tt }
    ensures work { work.new ≡ (if is_ok result then worked in_place (patched_in S.ReadableStorageTraits (text key.now) source.now patches.now store.now) work.old else work.old) }
{
    if in_place {
        check_patches(patches, source)?;
    } else {
        build_patched(store, key, patches, source, work)?;
    }
    Ok(())
}

/// Builds what the patches make of the value under `key` at the front of `work`, and answers its length.
pub fn build_patched<S: ReadableStorageTraits>(
    store: &S,
    key: &StoreKey,
    patches: &[Patch],
    source: &[u8],
    work: &mut [u8],
) -> Result<usize, Fault>
    ensures answer { result ≡ answered (lay_no source.now patches.now (value_in S.ReadableStorageTraits (text key.now) store.now) (length work.old)) (length (patched_in S.ReadableStorageTraits (text key.now) source.now patches.now store.now)) }
    ensures work { work.new ≡ (if is_ok result then fronted (patched_in S.ReadableStorageTraits (text key.now) source.now patches.now store.now) work.old else work.old) }
{
    check_lay(store, key, patches, source, work.len())?;
    let old_len = copy_value(store, key, work);
    // there is room for the new value, so that this is no refusal
    Ok(lay_patches_in_place(old_len, patches, source, work)?)
}

/// Lays the patches on the value under `key` by reading it, building the new value at the front of `work`, and setting it.
pub fn store_set_partial_many<S: WritableStorageTraits>(
    store: &mut S,
    key: &StoreKey,
    patches: &[Patch],
    source: &[u8],
    work: &mut [u8],
) -> Result<(), Fault>
    ensures { WrotePatched S.ReadableStorageTraits (text key.now) source.now patches.now result store.old store.new work.old work.new }
{
    let n = build_patched(store, key, patches, source, work)?;
    store.set(key, &work[0..n])
}

/// Lays the bytes of `value` at `offset` on the value under `key`.
pub fn set_partial<S: WritableStorageTraits>(
    store: &mut S,
    key: &StoreKey,
    offset: u64,
    value: &[u8],
    work: &mut [u8],
) -> Result<(), Fault>
    ensures { WroteAt S.ReadableStorageTraits (text key.now) value.now (record { offset = offset; start = 0; len = length value.now } ∷ []) result store.old store.new work.old work.new }
{
    let patch = Patch {
        offset,
        start: 0,
        len: value.len(),
    };
    store.set_partial_many(key, &[patch], value, work)
}

/// The questions before patches are laid on the value under `key` in a work buffer of `space` bytes.
#[tactic(auto, using(crate::proofs::OffsetWrites::lay_room))]
fn check_lay<S: ReadableStorageTraits>(
    store: &S,
    key: &StoreKey,
    patches: &[Patch],
    source: &[u8],
    space: usize,
) -> Result<(), Fault>
    ensures { result ≡ answered (lay_no source.now patches.now (value_in S.ReadableStorageTraits (text key.now) store.now) space) tt }
{
    check_patches(patches, source)?;
    let old_len = store.size_key(key).unwrap_or(0);
    Ok(check_room(old_len, patches, space)?)
}

/// Copies the value under `key` to the front of `work`, which has room for it, and answers its length; 0 if it is not stored.
fn copy_value<S: ReadableStorageTraits>(store: &S, key: &StoreKey, work: &mut [u8]) -> usize
    requires { length (value_in S.ReadableStorageTraits (text key.now) store.now) ≤ length work.old }
    ensures len { result ≡ length (value_in S.ReadableStorageTraits (text key.now) store.now) }
    ensures work { work.new ≡ fronted (value_in S.ReadableStorageTraits (text key.now) store.now) work.old }
{
    match get(store, key, work) {
        Ok(Some(n)) => n,
        _ => 0,
    }
}
