use crate::fixture::{depth, key, refusal};
use atomic_write::atomic_write::AtomicWriteStorageAdapter;
use layers::countdown::Countdown;
use memory_store::memory_store::MemoryStore;
use patches::Patch;
use ranges::byte_range::ByteRange;
use std::test::Fail;
use storage::patching::{set_partial, store_set_partial_many};
use storage::reads::{get, get_partial};
use storage::storage_sync::ReadableStorageTraits;
use storage::storage_sync::writes::WritableStorageTraits;

#[test]
fn patches_are_laid_in_place(rt: HostRuntime) -> Result<(), Fail> {
    let mut store = MemoryStore::new(rt.alloc())?;
    let mut out = [0u8; 8];
    let set = store.set(&key(b"a"), &[1, 2, 3, 4]).map_err(refusal);
    let inside = set_partial(&mut store, &key(b"a"), 1, &[9], &mut []).map_err(refusal);
    let behind = set_partial(&mut store, &key(b"a"), 6, &[7], &mut []).map_err(refusal);
    let zeros = set_partial(&mut store, &key(b"z"), 5, &[], &mut []).map_err(refusal);
    let none = store
        .set_partial_many(&key(b"n"), &[], &[], &mut [])
        .map_err(refusal);
    let _ = get(&store, &key(b"a"), &mut out);
    let sizes = (
        store.size_key(&key(b"a")),
        store.size_key(&key(b"z")),
        store.size_key(&key(b"n")),
    );
    drop(store);
    assert_eq!(rt; set, Ok(()));
    assert_eq!(rt; inside, Ok(()));
    assert_eq!(rt; behind, Ok(()));
    assert_eq!(rt; zeros, Ok(()));
    assert_eq!(rt; none, Ok(()));
    assert_eq!(rt; out, [1, 9, 3, 4, 0, 0, 7, 0]);
    assert_eq!(rt; sizes, (Some(7), Some(5), None));
    Ok(())
}

#[test]
fn an_offset_write_may_find_no_space(rt: HostRuntime) -> Result<(), Fail> {
    let mut store = MemoryStore::new(rt.alloc())?;
    let most = set_partial(&mut store, &key(b"a"), 32767, &[1], &mut []).map_err(refusal);
    let over = set_partial(&mut store, &key(b"a"), 32768, &[1], &mut []).map_err(refusal);
    let far = set_partial(&mut store, &key(b"a"), u64::MAX, &[1], &mut []).map_err(refusal);
    let size = store.size_key(&key(b"a"));
    drop(store);
    assert_eq!(rt; most, Ok(()));
    assert_eq!(rt; over, Err((8, 0, 0, 0)));
    assert_eq!(rt; far, Err((8, 0, 0, 0)));
    assert_eq!(rt; size, Some(32768));
    Ok(())
}

#[test]
fn patches_are_asked_before_the_device(rt: HostRuntime) -> Result<(), Fail> {
    let patch = Patch {
        offset: 0,
        start: 0,
        len: 1,
    };
    let outside = Patch {
        offset: 0,
        start: 1,
        len: 1,
    };
    let mut store = Countdown::new(MemoryStore::new(rt.alloc())?, 0, 0);
    let many = store
        .set_partial_many(&key(b"a"), &[patch; 65], &[1], &mut [])
        .map_err(refusal);
    let place = store
        .set_partial_many(&key(b"a"), &[patch, outside], &[1], &mut [])
        .map_err(refusal);
    let device = store
        .set_partial_many(&key(b"a"), &[patch], &[1], &mut [])
        .map_err(refusal);
    drop(store.into_inner());
    assert_eq!(rt; many, Err((6, 0, 0, 0)));
    assert_eq!(rt; place, Err((6, 1, 0, 0)));
    assert_eq!(rt; device, Err((10, 0, 0, 0)));
    Ok(())
}

#[test]
fn through_a_work_buffer(rt: HostRuntime) -> Result<(), Fail> {
    let mut store = Countdown::new(MemoryStore::new(rt.alloc())?, 1, 1);
    let patch = Patch {
        offset: 2,
        start: 0,
        len: 1,
    };
    let mut short = [5u8; 2];
    let mut work = [5u8; 4];
    let refused = store_set_partial_many(
        &mut store,
        &key(b"a"),
        &[patch],
        &[9],
        &mut short,
    ).map_err(refusal);
    let empty = store_set_partial_many(&mut store, &key(b"e"), &[], &[], &mut []).map_err(refusal);
    let device = store_set_partial_many(&mut store, &key(b"a"), &[patch], &[9], &mut work).map_err(
        refusal,
    );
    let sizes = (store.size_key(&key(b"e")), store.size_key(&key(b"a")));
    drop(store.into_inner());
    assert_eq!(rt; refused, Err((9, 0, 0, 0)));
    assert_eq!(rt; short, [5, 5]);
    assert_eq!(rt; empty, Ok(()));
    assert_eq!(rt; device, Err((10, 0, 0, 0)));
    assert_eq!(rt; work, [0, 0, 9, 5]);
    assert_eq!(rt; sizes, (Some(0), None));
    Ok(())
}

#[test]
fn an_export_of_patches(rt: HostRuntime) -> Result<(), Fail> {
    let mut exports = AtomicWriteStorageAdapter::new(Countdown::new(
        MemoryStore::new(rt.alloc())?,
        3,
        9,
    ));
    let mut work = [5u8; 4];
    let set = exports.set(&key(b"a"), &[1, 2]).map_err(refusal);
    let patch = Patch {
        offset: 1,
        start: 0,
        len: 2,
    };
    let cut = exports
        .set_partial_many(&key(b"a"), &[patch], &[8, 9], &mut work)
        .map_err(refusal);
    let stands = exports.size_key(&key(b"a.tmp"));
    exports.power_on();
    let mut again = [5u8; 4];
    let blocked = exports
        .set_partial_many(&key(b"a"), &[patch], &[8, 9], &mut again)
        .map_err(refusal);
    drop(exports.into_inner().into_inner());
    assert_eq!(rt; set, Ok(()));
    assert_eq!(rt; cut, Err((10, 0, 1, 2)));
    assert_eq!(rt; work, [1, 8, 9, 5]);
    assert_eq!(rt; stands, Some(3));
    assert_eq!(rt; blocked, Err((7, 0, 0, 0)));
    assert_eq!(rt; again, [1, 8, 9, 5]);
    Ok(())
}

#[test]
fn one_range_is_read(rt: HostRuntime) -> Result<(), Fail> {
    let mut store = Countdown::new(MemoryStore::new(rt.alloc())?, 9, 9);
    let set = store.set(&key(b"a"), &[1, 2, 3]).map_err(refusal);
    let mut out = [7u8; 2];
    let unfit = get_partial(&store, &key(b"a"), ByteRange::Suffix(4), &mut out).map_err(depth);
    let short = get_partial(&store, &key(b"a"), ByteRange::FromStart(0, None), &mut out).map_err(
        depth,
    );
    let untouched = out;
    let read = get_partial(&store, &key(b"a"), ByteRange::Suffix(2), &mut out).is_ok();
    let absent = get_partial(&store, &key(b"b"), ByteRange::Suffix(2), &mut out).is_ok();
    drop(store.into_inner());
    assert_eq!(rt; set, Ok(()));
    assert_eq!(rt; unfit, Err((4, 0)));
    assert_eq!(rt; short, Err((9, 1)));
    assert_eq!(rt; untouched, [7, 7]);
    assert!(rt; read);
    assert!(rt; absent);
    assert_eq!(rt; out, [2, 3]);
    Ok(())
}
