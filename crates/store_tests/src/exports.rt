use crate::fixture::{key, refusal};
use atomic_write::atomic_write::AtomicWriteStorageAdapter;
use keys::store_key::StoreKey;
use layers::countdown::Countdown;
use memory_store::memory_store::MemoryStore;
use std::test::Fail;
use storage::storage_sync::ReadableStorageTraits;
use storage::storage_sync::writes::WritableStorageTraits;

#[test]
fn the_power_fails_between_the_steps(rt: HostRuntime) -> Result<(), Fail> {
    let store = MemoryStore::new(rt.alloc())?;
    let mut exports = AtomicWriteStorageAdapter::new(Countdown::new(store, 1, 2));
    let cut = exports.set(&key(b"a"), b"new").map_err(refusal);
    let blocked = exports.set(&key(b"a"), b"newer").map_err(refusal);
    let other = exports.set(&key(b"b"), b"x").map_err(refusal);
    let (label, temporary) = (
        exports.size_key(&key(b"a")),
        exports.size_key(&key(b"a.tmp")),
    );
    drop(exports.into_inner().into_inner());
    assert_eq!(rt; cut, Err((10, 1, 2)));
    assert_eq!(rt; blocked, Err((7, 0, 0)));
    assert_eq!(rt; other, Err((10, 1, 1)));
    assert_eq!(rt; label, None);
    assert_eq!(rt; temporary, Some(3));
    Ok(())
}

#[test]
fn a_refusal_comes_up_through_the_layers(rt: HostRuntime) -> Result<(), Fail> {
    let store = MemoryStore::new(rt.alloc())?;
    let mut exports = AtomicWriteStorageAdapter::new(Countdown::new(
        Countdown::new(store, 0, 0),
        9,
        9,
    ));
    let cut = exports.set(&key(b"a"), b"new").map_err(refusal);
    drop(exports.into_inner().into_inner().into_inner());
    assert_eq!(rt; cut, Err((10, 2, 1)));
    Ok(())
}

#[test]
fn the_temporary_key_has_at_most_120_bytes(rt: HostRuntime) -> Result<(), Fail> {
    let store = MemoryStore::new(rt.alloc())?;
    let mut exports = AtomicWriteStorageAdapter::new(store);
    let most = exports.set(&key(&[b'k'; 116]), b"x").map_err(refusal);
    let over = exports.set(&key(&[b'k'; 117]), b"x").map_err(refusal);
    let root = exports.set(&StoreKey::root(), b"x").map_err(refusal);
    drop(exports.into_inner());
    assert_eq!(rt; most, Ok(()));
    assert_eq!(rt; over, Err((3, 0, 0)));
    assert_eq!(rt; root, Err((12, 0, 0)));
    Ok(())
}
