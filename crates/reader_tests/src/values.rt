use crate::fixture::told;
use extraction::{Note, Place};
use keys::store_key::StoreKey;
use layers::countdown::Countdown;
use memory_store::memory_store::MemoryStore;
use ranges::byte_range::ByteRange;
use readers::reader::calls::{Read, Seek};
use readers::reader_fault::{ReadCause, ReaderFault};
use readers::seek_from::SeekFrom;
use readers::storage_value_io::StorageValueIO;
use readers::stored_ranges::extract_stored_byte_ranges;
use std::test::Fail;
use storage::fault::Cause;
use storage::storage_sync::writes::WritableStorageTraits;

fn key(text: &[u8]) -> StoreKey {
    StoreKey::new(text).unwrap_or(StoreKey::root())
}

/// The number of a read's refusal, and what it holds.
fn read(r: Result<(), ReaderFault>) -> Result<(), (u8, Option<(u8, Option<u64>)>)> {
    r.map_err(|f| (f.cause.number(), held(f.cause)))
}

/// The number of the store's fault that a cause holds, and the size in it.
fn held(cause: ReadCause) -> Option<(u8, Option<u64>)> {
    match cause {
        ReadCause::End(fault) => Some((fault.cause.number(), size(fault.cause))),
        _ => None,
    }
}

/// The size that a range fault holds.
fn size(cause: Cause) -> Option<u64> {
    match cause {
        Cause::Range(e) => Some(e.size),
        _ => None,
    }
}

#[test]
fn a_value_is_read_through_a_layer(rt: HostRuntime) -> Result<(), Fail> {
    let mut store = MemoryStore::new(rt.alloc())?;
    let _ = store.set(&key(b"a"), b"xyz");
    let mut reader = StorageValueIO::new(Countdown::new(store, 1, 1), key(b"a"));
    let mut out = [0u8; 2];
    let end = told(reader.seek(SeekFrom::End(-2)));
    let first = read(reader.read_exact(&mut out));
    let past = read(reader.read_exact(&mut out));
    let none = read(reader.read_exact(&mut out[0..0]));
    let here = told(reader.seek(SeekFrom::Current(0)));
    drop(reader.into_inner().into_inner());
    assert_eq!(rt; end, Ok(1));
    assert_eq!(rt; first, Ok(()));
    assert_eq!(rt; out, [121, 122]);
    assert_eq!(rt; past, Err((14, Some((4, Some(3))))));
    assert_eq!(rt; none, Ok(()));
    assert_eq!(rt; here, Ok(3));
    Ok(())
}

#[test]
fn an_absent_value_has_no_end(rt: HostRuntime) -> Result<(), Fail> {
    let mut reader = StorageValueIO::new(MemoryStore::new(rt.alloc())?, key(b"a"));
    let mut out = [7u8; 1];
    let end = told(reader.seek(SeekFrom::End(0)));
    let start = told(reader.seek(SeekFrom::Start(5)));
    let some = read(reader.read_exact(&mut out));
    let none = read(reader.read_exact(&mut out[0..0]));
    drop(reader.into_inner());
    assert_eq!(rt; end, Err(5));
    assert_eq!(rt; start, Ok(5));
    assert_eq!(rt; some, Err((5, None)));
    assert_eq!(rt; none, Ok(()));
    assert_eq!(rt; out, [7]);
    Ok(())
}

#[test]
fn an_empty_value_is_readable(rt: HostRuntime) -> Result<(), Fail> {
    let mut store = MemoryStore::new(rt.alloc())?;
    let _ = store.set(&key(b"a"), b"");
    let mut reader = StorageValueIO::new(store, key(b"a"));
    let mut out = [7u8; 1];
    let end = told(reader.seek(SeekFrom::End(0)));
    let none = read(reader.read_exact(&mut out[0..0]));
    let some = read(reader.read_exact(&mut out));
    drop(reader.into_inner());
    assert_eq!(rt; end, Ok(0));
    assert_eq!(rt; none, Ok(()));
    assert_eq!(rt; some, Err((14, Some((4, Some(0))))));
    Ok(())
}

#[test]
fn the_store_comes_back(rt: HostRuntime) -> Result<(), Fail> {
    let mut store = MemoryStore::new(rt.alloc())?;
    let _ = store.set(&key(b"a"), b"xyz");
    let mut out = [0u8; 4];
    let mut notes = [Ok(Place { start: 0, len: 0 }); 2];
    let ranges = [ByteRange::Suffix(1), ByteRange::FromStart(1, None)];
    let below = Countdown::new(store, 1, 1);
    let (below, absent) = extract_stored_byte_ranges(
        below,
        key(b"b"),
        &ranges,
        &mut out,
        &mut notes,
    );
    let (mut below, found) = extract_stored_byte_ranges(
        below,
        key(b"a"),
        &ranges,
        &mut out,
        &mut notes,
    );
    let wrote = below.set(&key(b"b"), b"1").is_ok();
    let cut = below.set(&key(b"b"), b"2").is_err();
    drop(below.into_inner());
    assert_eq!(rt; told(absent), Err(5));
    assert_eq!(rt; told(found), Ok(3));
    assert_eq!(rt; out, [122, 121, 122, 0]);
    assert!(rt; wrote && cut);
    Ok(())
}
