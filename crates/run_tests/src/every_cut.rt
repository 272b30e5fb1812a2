use crate::fixture::{key, listed, set};
use atomic_write::atomic_write::AtomicWriteStorageAdapter;
use layers::countdown::Countdown;
use memory_store::memory_store::MemoryStore;
use patches::Patch;
use runs::call::{Answer, Call};
use runs::run::run;
use std::alloc::{AllocError, Global};
use std::test::Fail;

/// Nine writes: an export of a, one of b, one of a patch on a, an erasure of b, an export of c; then power-on, sizes and a listing.
fn mixed(heap: Global) -> Result<Vec<Call>, AllocError> {
    let patch = Patch {
        offset: 3,
        start: 0,
        len: 1,
    };
    let patches = vec![in heap; patch]?;
    let source = Vec::from_slice(heap, b"s")?;
    Ok(vec![in heap;
        set(b"a", b"one", heap)?,
        set(b"b", b"two", heap)?,
        Call::SetPartialMany(key(b"a"), patches, source, 4),
        Call::Erase(key(b"b")),
        set(b"c", b"three", heap)?,
        Call::PowerOn,
        Call::SizeKey(key(b"a")),
        Call::SizeKey(key(b"b")),
        Call::SizeKey(key(b"c")),
        Call::List(4),
    ]?)
}

/// The length that the i-th answer, of a size, tells; none in it for an absent label.
fn size(answers: &[Answer], i: usize) -> Option<Option<u64>> {
    match answers.get(i) {
        Some(Answer::Size(n)) => Some(*n),
        _ => None,
    }
}

/// What is stored where the power fails after `cut` writes: the lengths of a, b and c, and how many keys there are.
fn left(cut: u64) -> (Option<u64>, Option<u64>, Option<u64>, usize) {
    match cut {
        0 => (None, None, None, 0),
        1 => (None, None, None, 1),
        2 => (Some(3), None, None, 1),
        3 => (Some(3), None, None, 2),
        4 => (Some(3), Some(3), None, 2),
        5 => (Some(3), Some(3), None, 3),
        6 => (Some(4), Some(3), None, 2),
        7 => (Some(4), None, None, 1),
        8 => (Some(4), None, None, 2),
        _ => (Some(4), None, Some(5), 2),
    }
}

#[test]
fn the_power_fails_at_every_write(rt: HostRuntime) -> Result<(), Fail> {
    let heap = rt.alloc();
    for cut in 0..10 {
        let calls = mixed(heap)?;
        let store = MemoryStore::new(heap)?;
        let mut exports = AtomicWriteStorageAdapter::new(Countdown::new(store, cut, 9));
        let record = run(&mut exports, calls.as_slice(), heap);
        drop(exports.into_inner().into_inner());
        let answers = record.answers.as_slice();
        assert!(rt; record.ended.is_ok());
        let (a, b, c, keys) = left(cut);
        assert_eq!(rt; size(answers, 6), Some(a));
        assert_eq!(rt; size(answers, 7), Some(b));
        assert_eq!(rt; size(answers, 8), Some(c));
        assert_eq!(rt; listed(answers, 9), Some(keys));
    }
    Ok(())
}
