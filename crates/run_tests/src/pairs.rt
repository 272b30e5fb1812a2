use crate::fixture::{key, prefix, read, set, told};
use atomic_write::atomic_write::AtomicWriteStorageAdapter;
use memory_store::memory_store::MemoryStore;
use runs::call::Call;
use runs::run::run_two;
use std::alloc::{AllocError, Global};
use std::test::Fail;

fn export_and_read(heap: Global) -> Result<Vec<Call>, AllocError> {
    Ok(vec![in heap; set(b"r/a", b"x", heap)?, Call::Get(key(b"r/a"), 1)]?)
}

/// The same under `r/`, with calls elsewhere between.
fn with_calls_elsewhere(heap: Global) -> Result<Vec<Call>, AllocError> {
    Ok(vec![in heap;
        set(b"q", b"yy", heap)?,
        set(b"r/a", b"x", heap)?,
        Call::ErasePrefix(prefix(b"s/")),
        Call::Get(key(b"r/a"), 1),
    ]?)
}

#[test]
fn calls_elsewhere_change_no_answer(rt: HostRuntime) -> Result<(), Fail> {
    let heap = rt.alloc();
    let calls = export_and_read(heap)?;
    let others = with_calls_elsewhere(heap)?;
    let store = MemoryStore::new(heap)?;
    let another = MemoryStore::new(heap)?;
    let mut one = AtomicWriteStorageAdapter::new(store);
    let mut other = AtomicWriteStorageAdapter::new(another);
    let (first, second) = run_two(
        &mut one,
        calls.as_slice(),
        &mut other,
        others.as_slice(),
        heap,
    );
    drop(one.into_inner());
    drop(other.into_inner());
    assert!(rt; read(first.answers.as_slice(), 1, b"x"));
    assert!(rt; read(second.answers.as_slice(), 3, b"x"));
    assert_eq!(rt; told(second.answers.as_slice(), 2), Some(Ok(())));
    Ok(())
}
