use keys::row::Row;
use keys::store_key::StoreKey;
use keys::store_prefix::StorePrefix;
use order::total_order::TotalOrder;
use std::cmp::Ordering;

/// The row of a key's bytes, or the empty row.
fn key_row(bytes: &[u8]) -> Row {
    StoreKey::new(bytes)
        .map(|key| Row::from(&key))
        .unwrap_or(Row::empty())
}

/// The row of a prefix's bytes, or the empty row.
fn prefix_row(bytes: &[u8]) -> Row {
    StorePrefix::new(bytes)
        .map(|prefix| Row::from(&prefix))
        .unwrap_or(Row::empty())
}

/// Whether the row's key has its text, or the number with which the row is refused as a key.
fn to_key(row: &Row) -> Result<bool, u8> {
    StoreKey::try_from(row)
        .map(|key| key.as_bytes() == row.as_bytes())
        .map_err(|e| e.number())
}

/// Whether the row's prefix has its text, or the number with which the row is refused as a prefix.
fn to_prefix(row: &Row) -> Result<bool, u8> {
    StorePrefix::try_from(row)
        .map(|prefix| prefix.as_bytes() == row.as_bytes())
        .map_err(|e| e.number())
}

/// A row of slashes, of any length.
fn slashes(len: usize) -> Row {
    Row {
        bytes: [b'/'; 121],
        len,
    }
}

#[test]
fn rows_and_back(rt: HostRuntime) {
    assert_eq!(rt; to_key(&key_row(b"a/b")), Ok(true));
    assert_eq!(rt; to_prefix(&prefix_row(b"a/b/")), Ok(true));
    assert_eq!(rt; key_row(b"a/b").as_bytes().len(), 3);
    assert!(rt; key_row(b"") == Row::empty());
    assert_eq!(rt; to_key(&prefix_row(b"a/b/")), Err(1));
    assert_eq!(rt; to_prefix(&key_row(b"a/b")), Err(2));
}

#[test]
fn odd_rows(rt: HostRuntime) {
    assert_eq!(rt; to_key(&slashes(120)), Err(1));
    assert_eq!(rt; to_key(&slashes(121)), Err(3));
    assert_eq!(rt; to_key(&slashes(122)), Err(3));
    assert_eq!(rt; to_prefix(&slashes(121)), Err(2));
    assert_eq!(rt; to_prefix(&slashes(122)), Err(3));
    assert_eq!(rt; slashes(1000).as_bytes().len(), 121);
}

#[test]
fn row_order(rt: HostRuntime) {
    assert_eq!(rt; key_row(b"a").compare(&key_row(b"ab")), Ordering::Less);
    assert_eq!(rt; key_row(b"ab").compare(&key_row(b"a")), Ordering::Greater);
    assert_eq!(rt; key_row(b"a").compare(&key_row(b"a")), Ordering::Equal);
    assert_eq!(rt; slashes(0).compare(&Row::empty()), Ordering::Greater);
    assert_eq!(rt; slashes(122).compare(&slashes(121)), Ordering::Greater);
    assert!(rt; slashes(122) != slashes(121));
}
