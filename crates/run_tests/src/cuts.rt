use crate::fixture::{erase_one, key, listed, read, set, told};
use atomic_write::atomic_write::AtomicWriteStorageAdapter;
use layers::countdown::Countdown;
use memory_store::memory_store::MemoryStore;
use runs::call::Call;
use runs::run::run;
use std::alloc::{AllocError, Global};
use std::test::Fail;

/// An export that is cut at its second step, found standing, cleared, and made again.
fn cut_and_cleared(heap: Global) -> Result<Vec<Call>, AllocError> {
    Ok(vec![in heap;
        set(b"a", b"new", heap)?,
        set(b"a", b"newer", heap)?,
        Call::List(3),
        Call::PowerOn,
        erase_one(b"a.tmp", heap)?,
        set(b"a", b"newer", heap)?,
        Call::Get(key(b"a"), 5),
        Call::List(3),
    ]?)
}

#[test]
fn an_export_is_cut_and_cleared(rt: HostRuntime) -> Result<(), Fail> {
    let heap = rt.alloc();
    let calls = cut_and_cleared(heap)?;
    let store = MemoryStore::new(heap)?;
    let mut exports = AtomicWriteStorageAdapter::new(Countdown::new(store, 1, 9));
    let record = run(&mut exports, calls.as_slice(), heap);
    drop(exports.into_inner().into_inner());
    let answers = record.answers.as_slice();
    assert!(rt; record.ended.is_ok());
    assert_eq!(rt; told(answers, 0), Some(Err((10, 1, 2))));
    assert_eq!(rt; told(answers, 1), Some(Err((7, 0, 0))));
    assert_eq!(rt; listed(answers, 2), Some(1));
    assert_eq!(rt; told(answers, 4), Some(Ok(())));
    assert_eq!(rt; told(answers, 5), Some(Ok(())));
    assert!(rt; read(answers, 6, b"newer"));
    assert_eq!(rt; listed(answers, 7), Some(1));
    Ok(())
}
