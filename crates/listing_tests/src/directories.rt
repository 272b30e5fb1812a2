use crate::fixture::{holds, prefix, put, told, told_both};
use keys::row::Row;
use keys::store_prefix::StorePrefix;
use layers::countdown::Countdown;
use listings::listing::{list, list_dir, list_prefix, size, size_prefix};
use memory_store::memory_store::MemoryStore;
use std::test::Fail;

/// The root key, and keys whose components compare before and after the slash.
fn put_some(store: &mut MemoryStore) {
    put(store, b"a/d/f");
    put(store, b"a/d-x/y");
    put(store, b"c");
    put(store, b"a/b");
    put(store, b"");
    put(store, b"a/d/e");
}

#[test]
fn keys_are_listed_in_order(rt: HostRuntime) -> Result<(), Fail> {
    let mut store = MemoryStore::new(rt.alloc())?;
    put_some(&mut store);
    let mark = Row::from(&prefix(b"mark/"));
    let mut rows = [mark; 7];
    assert_eq!(rt; told(list(&store, &mut rows)), Ok(6));
    assert!(rt; holds(&rows[0], b"") && holds(&rows[1], b"a/b"));
    assert!(rt; holds(&rows[2], b"a/d-x/y") && holds(&rows[3], b"a/d/e"));
    assert!(rt; holds(&rows[4], b"a/d/f") && holds(&rows[5], b"c"));
    assert!(rt; holds(&rows[6], b"mark/"));
    assert_eq!(rt;
        told(list_prefix(&store, &prefix(b"a/d/"), &mut rows)),
        Ok(2)
    );
    assert!(rt; holds(&rows[0], b"a/d/e") && holds(&rows[1], b"a/d/f"));
    assert!(rt; holds(&rows[2], b"a/d-x/y"));
    assert_eq!(rt; size(&store), 18);
    assert_eq!(rt; size_prefix(&store, &prefix(b"a/")), 12);
    assert_eq!(rt; size_prefix(&store, &prefix(b"b/")), 0);
    Ok(())
}

#[test]
fn a_directory_has_keys_and_prefixes(rt: HostRuntime) -> Result<(), Fail> {
    let mut store = MemoryStore::new(rt.alloc())?;
    put_some(&mut store);
    let mut keys = [Row::empty(); 2];
    let mut prefixes = [Row::empty(); 2];
    let root = told_both(list_dir(&store, &StorePrefix::root(), &mut keys, &mut prefixes));
    assert_eq!(rt; root, Ok((2, 1)));
    assert!(rt; holds(&keys[0], b"") && holds(&keys[1], b"c"));
    assert!(rt; holds(&prefixes[0], b"a/") && holds(&prefixes[1], b""));
    let nested = told_both(list_dir(&store, &prefix(b"a/"), &mut keys, &mut prefixes));
    assert_eq!(rt; nested, Ok((1, 2)));
    assert!(rt; holds(&keys[0], b"a/b") && holds(&keys[1], b"c"));
    assert!(rt; holds(&prefixes[0], b"a/d-x/") && holds(&prefixes[1], b"a/d/"));
    let outside = told_both(list_dir(&store, &prefix(b"b/"), &mut keys, &mut prefixes));
    assert_eq!(rt; outside, Ok((0, 0)));
    Ok(())
}

#[test]
fn an_empty_store_lists_nothing(rt: HostRuntime) -> Result<(), Fail> {
    let store = MemoryStore::new(rt.alloc())?;
    let mut keys: [Row; 0] = [];
    let mut prefixes: [Row; 0] = [];
    assert_eq!(rt; told(list(&store, &mut keys)), Ok(0));
    let both = told_both(list_dir(&store, &StorePrefix::root(), &mut keys, &mut prefixes));
    assert_eq!(rt; both, Ok((0, 0)));
    assert_eq!(rt; size(&store), 0);
    Ok(())
}

#[test]
fn a_buffer_one_row_short_is_left_alone(rt: HostRuntime) -> Result<(), Fail> {
    let mut store = MemoryStore::new(rt.alloc())?;
    put_some(&mut store);
    let below = Countdown::new(store, 0, 0);
    let mark = Row::from(&prefix(b"mark/"));
    let mut keys = [mark; 5];
    let listed = told(list(&below, &mut keys));
    let mut two = [mark; 2];
    let mut one = [mark; 1];
    let few_keys = told_both(list_dir(&below, &StorePrefix::root(), &mut one, &mut two));
    let few_prefixes = told_both(list_dir(&below, &prefix(b"a/"), &mut two, &mut one));
    let same = holds(&keys[0], b"mark/") && holds(&one[0], b"mark/") && holds(&two[0], b"mark/");
    let enough = told_both(list_dir(&below, &prefix(b"a/"), &mut one, &mut two));
    drop(below.into_inner());
    assert_eq!(rt; listed, Err((9, 0)));
    assert_eq!(rt; few_keys, Err((9, 0)));
    assert_eq!(rt; few_prefixes, Err((9, 0)));
    assert!(rt; same);
    assert_eq!(rt; enough, Ok((1, 2)));
    assert!(rt; holds(&two[1], b"a/d/"));
    Ok(())
}
