use keys::store_prefix::StorePrefix;
use order::total_order::TotalOrder;
use std::cmp::Ordering;

/// The number with which bytes are refused as a prefix; none for a prefix.
fn refusal(bytes: &[u8]) -> Option<u8> {
    StorePrefix::new(bytes).err().map(|e| e.number())
}

/// The prefix of these bytes, or the root prefix.
fn prefix(bytes: &[u8]) -> StorePrefix {
    StorePrefix::new(bytes).unwrap_or(StorePrefix::root())
}

fn parent_is(bytes: &[u8], parent: &[u8]) -> bool {
    prefix(bytes)
        .parent()
        .is_some_and(|p| p.as_bytes() == parent)
}

fn order(a: &[u8], b: &[u8]) -> Ordering {
    prefix(a).compare(&prefix(b))
}

#[test]
fn prefix_lengths(rt: HostRuntime) {
    let mut long = [b'a'; 122];
    assert_eq!(rt; refusal(&long[0..120]), Some(2));
    assert_eq!(rt; refusal(&long), Some(3));
    long[119] = b'/';
    assert_eq!(rt; refusal(&long[0..120]), None);
    long[120] = b'/';
    assert_eq!(rt; refusal(&long[0..121]), None);
    long[121] = b'/';
    assert_eq!(rt; refusal(&long), Some(3));
    assert!(rt; StorePrefix::validate(&long));
}

#[test]
fn prefix_rule(rt: HostRuntime) {
    assert_eq!(rt; refusal(b""), None);
    assert_eq!(rt; refusal(b"a/"), None);
    assert_eq!(rt; refusal(b"a//"), None);
    assert_eq!(rt; refusal(b"a/b/"), None);
    assert_eq!(rt; refusal(b"/"), Some(2));
    assert_eq!(rt; refusal(b"a"), Some(2));
    assert_eq!(rt; refusal(b"/a/"), Some(2));
}

#[test]
fn prefix_parents(rt: HostRuntime) {
    assert!(rt; StorePrefix::root().parent().is_none());
    assert!(rt; parent_is(b"a/b/", b"a/"));
    assert!(rt; parent_is(b"a/", b""));
    assert!(rt; parent_is(b"a//", b"a/"));
}

#[test]
fn prefix_order(rt: HostRuntime) {
    assert_eq!(rt; order(b"", b"a/"), Ordering::Less);
    assert_eq!(rt; order(b"a/b/", b"a/"), Ordering::Greater);
    assert_eq!(rt; order(b"a/", b"a/"), Ordering::Equal);
    assert!(rt; prefix(b"a/") == prefix(b"a/"));
    assert!(rt; prefix(b"a/") != prefix(b"a/b/"));
}
