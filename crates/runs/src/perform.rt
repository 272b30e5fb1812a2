//! One call, with the buffers that it is passed. They are made first, so that want of memory ends a run before the call.

ghost use Rattle.std.specs.Prelude.{◌≡◌, IfOk, Ok, vec_len};
ghost use Rattle.keys.specs.StoreKeys.{text};
ghost use Rattle.keys.specs.StorePrefixes.{prefix_text};
ghost use Rattle.runs.specs.Events.{asked, set, patch, erase, erase_many, erase_prefix, power_on, read, size_key, get, get_partial, get_partial_many, key_at, list, list_prefix, list_dir, size_prefix, size};
ghost use Rattle.runs.specs.Performed.{Tried};
ghost use Rattle.runs.specs.Readings.{blank_notes};

use crate::call::{Answer, Call};
use atomic_write::atomic_write::AtomicWriteStorageAdapter;
use extraction::{Note, Place};
use keys::row::Row;
use keys::store_key::StoreKey;
use keys::store_prefix::StorePrefix;
use listings::listing;
use patches::Patch;
use ranges::byte_range::ByteRange;
use std::alloc::{AllocError, Global};
use storage::reads;
use storage::storage_sync::ReadableStorageTraits;
use storage::storage_sync::writes::{
    AtomicRenameStorageTraits, ListableStorageTraits, WritableStorageTraits,
};

/// That many notes, each of no byte.
fn blank_notes(len: usize, heap: Global) -> Result<Vec<Note>, AllocError>
    ensures { IfOk result (λ v. (v.items ≡ blank_notes len) × (vec_len v ≡ len)) }
{
    vec![in heap; Ok(Place { start: 0, len: 0 }); len]
}

pub(crate) fn set<S: AtomicRenameStorageTraits>(
    adapter: &mut AtomicWriteStorageAdapter<S>,
    key: &StoreKey,
    value: &[u8],
) -> Answer
    ensures { Tried S.ReadableStorageTraits (set (text key.now) value.now) adapter.old.storage adapter.new.storage (Ok result) }
{
    Answer::Wrote(adapter.set(key, value))
}

pub(crate) fn set_partial_many<S: AtomicRenameStorageTraits>(
    adapter: &mut AtomicWriteStorageAdapter<S>,
    key: &StoreKey,
    patches: &[Patch],
    source: &[u8],
    work_len: usize,
    heap: Global,
) -> Result<Answer, AllocError>
    ensures { Tried S.ReadableStorageTraits (patch (text key.now) patches.now source.now work_len) adapter.old.storage adapter.new.storage result }
{
    let mut work = vec![in heap; 0; work_len]?;
    let result = adapter.set_partial_many(key, patches, source, work.as_mut_slice());
    Ok(Answer::Patched(result, work))
}

pub(crate) fn erase<S: AtomicRenameStorageTraits>(
    adapter: &mut AtomicWriteStorageAdapter<S>,
    key: &StoreKey,
) -> Answer
    ensures { Tried S.ReadableStorageTraits (erase (text key.now)) adapter.old.storage adapter.new.storage (Ok result) }
{
    Answer::Wrote(adapter.erase(key))
}

pub(crate) fn erase_many<S: AtomicRenameStorageTraits>(
    adapter: &mut AtomicWriteStorageAdapter<S>,
    rows: &[Row],
) -> Answer
    ensures { Tried S.ReadableStorageTraits (erase_many rows.now) adapter.old.storage adapter.new.storage (Ok result) }
{
    Answer::Wrote(adapter.erase_many(rows))
}

pub(crate) fn erase_prefix<S: AtomicRenameStorageTraits>(
    adapter: &mut AtomicWriteStorageAdapter<S>,
    prefix: &StorePrefix,
) -> Answer
    ensures { Tried S.ReadableStorageTraits (erase_prefix (prefix_text prefix.now)) adapter.old.storage adapter.new.storage (Ok result) }
{
    Answer::Wrote(adapter.erase_prefix(prefix))
}

pub(crate) fn power_on<S: AtomicRenameStorageTraits>(
    adapter: &mut AtomicWriteStorageAdapter<S>,
) -> Answer
    ensures { Tried S.ReadableStorageTraits power_on adapter.old.storage adapter.new.storage (Ok result) }
{
    adapter.power_on();
    Answer::Wrote(Ok(()))
}

pub(crate) fn size_key<S: ReadableStorageTraits>(
    adapter: &AtomicWriteStorageAdapter<S>,
    key: &StoreKey,
) -> Answer
    ensures { Tried S.ReadableStorageTraits (read (size_key (text key.now))) adapter.now.storage adapter.now.storage (Ok result) }
{
    Answer::Size(adapter.size_key(key))
}

pub(crate) fn get<S: ReadableStorageTraits>(
    adapter: &AtomicWriteStorageAdapter<S>,
    key: &StoreKey,
    len: usize,
    heap: Global,
) -> Result<Answer, AllocError>
    ensures { Tried S.ReadableStorageTraits (read (get (text key.now) len)) adapter.now.storage adapter.now.storage result }
{
    let mut out = vec![in heap; 0; len]?;
    let result = reads::get(adapter, key, out.as_mut_slice());
    Ok(Answer::Read(result, out))
}

pub(crate) fn get_partial<S: ReadableStorageTraits>(
    adapter: &AtomicWriteStorageAdapter<S>,
    key: &StoreKey,
    range: ByteRange,
    len: usize,
    heap: Global,
) -> Result<Answer, AllocError>
    ensures { Tried S.ReadableStorageTraits (read (get_partial (text key.now) range len)) adapter.now.storage adapter.now.storage result }
{
    let mut out = vec![in heap; 0; len]?;
    let result = reads::get_partial(adapter, key, range, out.as_mut_slice());
    Ok(Answer::Read(result, out))
}

pub(crate) fn get_partial_many<S: ReadableStorageTraits>(
    adapter: &AtomicWriteStorageAdapter<S>,
    key: &StoreKey,
    ranges: &[ByteRange],
    len: usize,
    notes_len: usize,
    heap: Global,
) -> Result<Answer, AllocError>
    ensures { Tried S.ReadableStorageTraits (read (get_partial_many (text key.now) ranges.now len notes_len)) adapter.now.storage adapter.now.storage result }
{
    let mut out = vec![in heap; 0; len]?;
    let mut notes = blank_notes(notes_len, heap)?;
    let result = adapter.get_partial_many(key, ranges, out.as_mut_slice(), notes.as_mut_slice());
    Ok(Answer::ReadMany(result, out, notes))
}

pub(crate) fn key_at<S: ListableStorageTraits>(
    adapter: &AtomicWriteStorageAdapter<S>,
    n: usize,
) -> Answer
    ensures { Tried S.ReadableStorageTraits (read (key_at n)) adapter.now.storage adapter.now.storage (Ok result) }
{
    Answer::Key(adapter.key_at(n))
}

pub(crate) fn list<S: ListableStorageTraits>(
    adapter: &AtomicWriteStorageAdapter<S>,
    len: usize,
    heap: Global,
) -> Result<Answer, AllocError>
    ensures { Tried S.ReadableStorageTraits (read (list len)) adapter.now.storage adapter.now.storage result }
{
    let mut keys = vec![in heap; Row::empty(); len]?;
    let result = listing::list(adapter, keys.as_mut_slice());
    Ok(Answer::Listed(result, keys))
}

pub(crate) fn list_prefix<S: ListableStorageTraits>(
    adapter: &AtomicWriteStorageAdapter<S>,
    prefix: &StorePrefix,
    len: usize,
    heap: Global,
) -> Result<Answer, AllocError>
    ensures { Tried S.ReadableStorageTraits (read (list_prefix (prefix_text prefix.now) len)) adapter.now.storage adapter.now.storage result }
{
    let mut keys = vec![in heap; Row::empty(); len]?;
    let result = listing::list_prefix(adapter, prefix, keys.as_mut_slice());
    Ok(Answer::Listed(result, keys))
}

pub(crate) fn list_dir<S: ListableStorageTraits>(
    adapter: &AtomicWriteStorageAdapter<S>,
    prefix: &StorePrefix,
    keys_len: usize,
    prefixes_len: usize,
    heap: Global,
) -> Result<Answer, AllocError>
    ensures { Tried S.ReadableStorageTraits (read (list_dir (prefix_text prefix.now) keys_len prefixes_len)) adapter.now.storage adapter.now.storage result }
{
    let mut keys = vec![in heap; Row::empty(); keys_len]?;
    let mut prefixes = vec![in heap; Row::empty(); prefixes_len]?;
    let result = listing::list_dir(
        adapter,
        prefix,
        keys.as_mut_slice(),
        prefixes.as_mut_slice(),
    );
    Ok(Answer::ListedDir(result, keys, prefixes))
}

pub(crate) fn size_prefix<S: ListableStorageTraits>(
    adapter: &AtomicWriteStorageAdapter<S>,
    prefix: &StorePrefix,
) -> Answer
    ensures { Tried S.ReadableStorageTraits (read (size_prefix (prefix_text prefix.now))) adapter.now.storage adapter.now.storage (Ok result) }
{
    Answer::Total(listing::size_prefix(adapter, prefix))
}

pub(crate) fn size<S: ListableStorageTraits>(adapter: &AtomicWriteStorageAdapter<S>) -> Answer
    ensures { Tried S.ReadableStorageTraits (read size) adapter.now.storage adapter.now.storage (Ok result) }
{
    Answer::Total(listing::size(adapter))
}

/// Performs a call. Its buffers are made first: for want of memory nothing is called.
pub(crate) fn perform<S: AtomicRenameStorageTraits + ListableStorageTraits>(
    adapter: &mut AtomicWriteStorageAdapter<S>,
    call: &Call,
    heap: Global,
) -> Result<Answer, AllocError>
    ensures { Tried S.ReadableStorageTraits (asked call.now) adapter.old.storage adapter.new.storage result }
{
    match call {
        Call::Set(key, value) => Ok(set(adapter, key, value.as_slice())),
        Call::SetPartialMany(key, patches, source, work_len) => {
            set_partial_many(
                adapter,
                key,
                patches.as_slice(),
                source.as_slice(),
                *work_len,
                heap,
            )
        }
        Call::Erase(key) => Ok(erase(adapter, key)),
        Call::EraseMany(rows) => Ok(erase_many(adapter, rows.as_slice())),
        Call::ErasePrefix(prefix) => Ok(erase_prefix(adapter, prefix)),
        Call::PowerOn => Ok(power_on(adapter)),
        Call::SizeKey(key) => Ok(size_key(adapter, key)),
        Call::Get(key, len) => get(adapter, key, *len, heap),
        Call::GetPartial(key, range, len) => get_partial(adapter, key, *range, *len, heap),
        Call::GetPartialMany(key, ranges, len, notes_len) => {
            get_partial_many(adapter, key, ranges.as_slice(), *len, *notes_len, heap)
        }
        Call::KeyAt(n) => Ok(key_at(adapter, *n)),
        Call::List(len) => list(adapter, *len, heap),
        Call::ListPrefix(prefix, len) => list_prefix(adapter, prefix, *len, heap),
        Call::ListDir(prefix, keys, prefixes) => {
            list_dir(adapter, prefix, *keys, *prefixes, heap)
        }
        Call::SizePrefix(prefix) => Ok(size_prefix(adapter, prefix)),
        Call::Size => Ok(size(adapter)),
    }
}
