use crate::fixture::{key, number};
use memory_store::memory_store::{MAX_BYTES, MemoryStore};
use std::test::Fail;
use storage::storage_sync::ReadableStorageTraits;
use storage::storage_sync::writes::{
    AtomicRenameStorageTraits, ListableStorageTraits, WritableStorageTraits,
};

#[test]
fn the_65th_key_finds_no_space(rt: HostRuntime) -> Result<(), Fail> {
    let mut store = MemoryStore::new(rt.alloc())?;
    for i in 0..64u8 {
        assert_eq!(rt;
            store
                .set(&key(&[b'a' + i / 8, b'a' + i % 8]), b"x")
                .map_err(number),
            Ok(())
        );
    }
    assert_eq!(rt; store.set(&key(b"new"), b"").map_err(number), Err(8));
    assert_eq!(rt; store.set(&key(b"aa"), b"yz").map_err(number), Ok(()));
    assert_eq!(rt;
        store.rename(&key(b"aa"), &key(b"new")).map_err(number),
        Ok(())
    );
    assert_eq!(rt; store.size_key(&key(b"new")), Some(2));
    assert_eq!(rt; store.size_key(&key(b"aa")), None);
    Ok(())
}

#[test]
fn the_last_byte_fits(rt: HostRuntime) -> Result<(), Fail> {
    let mut store = MemoryStore::new(rt.alloc())?;
    let whole = vec![in rt.alloc(); 7u8; MAX_BYTES]?;
    assert_eq!(rt;
        store.set(&key(b"a"), whole.as_slice()).map_err(number),
        Ok(())
    );
    assert_eq!(rt; store.set(&key(b"b"), b"1").map_err(number), Err(8));
    assert_eq!(rt; store.size_key(&key(b"b")), None);
    // a stored value's bytes count as free when it is set again
    assert_eq!(rt;
        store.set(&key(b"a"), whole.as_slice()).map_err(number),
        Ok(())
    );
    assert_eq!(rt; store.set(&key(b"a"), b"12").map_err(number), Ok(()));
    assert_eq!(rt; store.set(&key(b"b"), b"1").map_err(number), Ok(()));
    Ok(())
}

#[test]
fn a_rename_wants_its_source(rt: HostRuntime) -> Result<(), Fail> {
    let mut store = MemoryStore::new(rt.alloc())?;
    assert_eq!(rt;
        store.rename(&key(b"a"), &key(b"b")).map_err(number),
        Err(5)
    );
    assert_eq!(rt; store.set(&key(b"a"), b"1").map_err(number), Ok(()));
    assert_eq!(rt;
        store.rename(&key(b"a"), &key(b"a")).map_err(number),
        Ok(())
    );
    assert_eq!(rt; store.size_key(&key(b"a")), Some(1));
    assert_eq!(rt; store.erase(&key(b"a")).map_err(number), Ok(()));
    assert!(rt; store.key_at(0).is_none());
    Ok(())
}
