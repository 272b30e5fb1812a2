use crate::fixture::{depth, key, refusal};
use atomic_write::atomic_write::AtomicWriteStorageAdapter;
use keys::row::Row;
use layers::countdown::Countdown;
use memory_store::memory_store::MemoryStore;
use std::test::Fail;
use storage::erasing::erase_many;
use storage::read_back::set_and_get;
use storage::storage_sync::ReadableStorageTraits;
use storage::storage_sync::writes::WritableStorageTraits;

/// A row of the bytes a, slash, which is no key.
fn no_key() -> Row {
    let mut row = Row::from(&key(b"aa"));
    row.bytes[1] = b'/';
    row
}

#[test]
fn what_comes_before_the_refusal_is_erased(rt: HostRuntime) -> Result<(), Fail> {
    let mut store = MemoryStore::new(rt.alloc())?;
    let set = (
        store.set(&key(b"a"), b"x").map_err(refusal),
        store.set(&key(b"b"), b"y").map_err(refusal),
    );
    let rows = [Row::from(&key(b"a")), no_key(), Row::from(&key(b"b"))];
    let refused = erase_many(&mut store, &rows).map_err(refusal);
    let left = (store.size_key(&key(b"a")), store.size_key(&key(b"b")));
    let mut long = Row::from(&key(b"b"));
    long.len = 121;
    let long = erase_many(&mut store, &[long]).map_err(refusal);
    drop(store);
    assert_eq!(rt; set, (Ok(()), Ok(())));
    assert_eq!(rt; refused, Err((1, 1, 0, 0)));
    assert_eq!(rt; left, (None, Some(1)));
    assert_eq!(rt; long, Err((3, 0, 0, 0)));
    Ok(())
}

#[test]
fn the_power_fails_among_many(rt: HostRuntime) -> Result<(), Fail> {
    let mut exports = AtomicWriteStorageAdapter::new(Countdown::new(
        MemoryStore::new(rt.alloc())?,
        5,
        9,
    ));
    let set = (
        exports.set(&key(b"a"), b"x").map_err(refusal),
        exports.set(&key(b"b"), b"y").map_err(refusal),
    );
    let rows = [Row::from(&key(b"a")), Row::from(&key(b"b")), no_key()];
    let cut = exports.erase_many(&rows).map_err(refusal);
    let left = (exports.size_key(&key(b"a")), exports.size_key(&key(b"b")));
    exports.power_on();
    let bad = exports.erase_many(&rows).map_err(refusal);
    drop(exports.into_inner().into_inner());
    assert_eq!(rt; set, (Ok(()), Ok(())));
    assert_eq!(rt; cut, Err((10, 1, 1, 0)));
    assert_eq!(rt; left, (None, Some(1)));
    assert_eq!(rt; bad, Err((1, 2, 0, 0)));
    Ok(())
}

#[test]
fn a_value_is_read_back_through_layers(rt: HostRuntime) -> Result<(), Fail> {
    let mut store = Countdown::new(Countdown::new(MemoryStore::new(rt.alloc())?, 9, 9), 1, 1);
    let mut out = [0u8; 3];
    let read = set_and_get(&mut store, &key(b"a"), &[1, 2], &mut out).is_ok();
    let refused = set_and_get(&mut store, &key(b"a"), &[3, 4], &mut out).map_err(depth);
    drop(store.into_inner().into_inner());
    assert!(rt; read);
    assert_eq!(rt; out, [1, 2, 0]);
    assert_eq!(rt; refused, Err((10, 0)));
    Ok(())
}
