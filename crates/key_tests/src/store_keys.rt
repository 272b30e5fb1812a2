use keys::store_key::{StoreKey, StoreKeyError};
use keys::store_prefix::StorePrefix;
use order::total_order::TotalOrder;
use std::cmp::Ordering;

/// The number with which bytes are refused as a key; none for a key.
fn refusal(bytes: &[u8]) -> Option<u8> {
    StoreKey::new(bytes).err().map(|e| e.number())
}

/// The key of these bytes, or the root key.
fn key(bytes: &[u8]) -> StoreKey {
    StoreKey::new(bytes).unwrap_or(StoreKey::root())
}

/// The prefix of these bytes, or the root prefix.
fn prefix(bytes: &[u8]) -> StorePrefix {
    StorePrefix::new(bytes).unwrap_or(StorePrefix::root())
}

/// Whether a key is `whole`, or the number of its refusal.
fn is_key(made: Result<StoreKey, StoreKeyError>, whole: &[u8]) -> Result<bool, u8> {
    made.map(|key| key.as_bytes() == whole)
        .map_err(|e| e.number())
}

/// Whether the key with the suffix behind it is `whole`, or the number of its refusal.
fn joined(front: &[u8], suffix: &[u8], whole: &[u8]) -> Result<bool, u8> {
    is_key(key(front).joined(suffix), whole)
}

fn parent_is(bytes: &[u8], parent: &[u8]) -> bool {
    key(bytes).parent().as_bytes() == parent
}

fn to_prefix_is(bytes: &[u8], whole: &[u8]) -> bool {
    key(bytes).to_prefix().as_bytes() == whole
}

fn under(bytes: &[u8], front: &[u8]) -> bool {
    key(bytes).has_prefix(&prefix(front))
}

/// Whether the key of the prefix is `whole`, or the number of its refusal.
fn from_prefix(bytes: &[u8], whole: &[u8]) -> Result<bool, u8> {
    is_key(StoreKey::try_from(&prefix(bytes)), whole)
}

fn order(a: &[u8], b: &[u8]) -> Ordering {
    key(a).compare(&key(b))
}

#[test]
fn key_lengths(rt: HostRuntime) {
    let long = [b'a'; 122];
    assert_eq!(rt; refusal(&long[0..0]), None);
    assert_eq!(rt; refusal(&long[0..1]), None);
    assert_eq!(rt; refusal(&long[0..119]), None);
    assert_eq!(rt; refusal(&long[0..120]), None);
    assert_eq!(rt; refusal(&long[0..121]), Some(3));
    assert_eq!(rt; refusal(&long), Some(3));
    assert_eq!(rt; refusal(&[b'/'; 121]), Some(3));
    assert!(rt; StoreKey::validate(&long));
}

#[test]
fn key_rule(rt: HostRuntime) {
    assert_eq!(rt; refusal(b"a/b"), None);
    assert_eq!(rt; refusal(b"a/b/c.d"), None);
    assert_eq!(rt; refusal(b"/"), Some(1));
    assert_eq!(rt; refusal(b"/a"), Some(1));
    assert_eq!(rt; refusal(b"a/"), Some(1));
    assert_eq!(rt; refusal(b"a//b"), Some(1));
    assert_eq!(rt; refusal(b"a/b//c"), Some(1));
    assert!(rt; StoreKey::validate(b""));
}

#[test]
fn key_joined(rt: HostRuntime) {
    assert_eq!(rt; joined(b"a/b", b".tmp", b"a/b.tmp"), Ok(true));
    assert_eq!(rt; joined(b"a/b", b"", b"a/b"), Ok(true));
    assert_eq!(rt; joined(b"a/b", b"/", b""), Err(1));
    assert_eq!(rt; joined(&[b'a'; 116], b"aaaa", &[b'a'; 120]), Ok(true));
    assert_eq!(rt; joined(&[b'a'; 116], b"/aaaa", b""), Err(3));
}

#[test]
fn key_parents(rt: HostRuntime) {
    assert!(rt; parent_is(b"a/b/c", b"a/b/"));
    assert!(rt; parent_is(b"a/b", b"a/"));
    assert!(rt; parent_is(b"ab", b""));
    assert!(rt; parent_is(b"", b""));
}

#[test]
fn key_prefixes(rt: HostRuntime) {
    assert!(rt; under(b"a/b", b""));
    assert!(rt; under(b"a/b", b"a/"));
    assert!(rt; !under(b"a/b", b"a/b/"));
    assert!(rt; !under(b"a/b", b"b/"));
    assert!(rt; to_prefix_is(b"a/b", b"a/b/"));
    assert!(rt; to_prefix_is(b"", b""));
    assert_eq!(rt; key(&[b'a'; 120]).to_prefix().as_bytes().len(), 121);
}

#[test]
fn key_from_prefix(rt: HostRuntime) {
    let mut long = [b'a'; 121];
    long[120] = b'/';
    assert_eq!(rt; from_prefix(&long, &[b'a'; 120]), Ok(true));
    assert_eq!(rt; from_prefix(b"a/b/", b"a/b"), Ok(true));
    assert_eq!(rt; from_prefix(b"", b""), Ok(true));
    assert_eq!(rt; from_prefix(b"a//", b""), Err(1));
}

#[test]
fn key_order(rt: HostRuntime) {
    assert_eq!(rt; order(b"a", b"a/b"), Ordering::Less);
    assert_eq!(rt; order(&[0xff], b"a/b"), Ordering::Greater);
    assert_eq!(rt; order(b"a/b", b"a/b"), Ordering::Equal);
    assert!(rt; key(b"a") == key(b"a"));
    assert!(rt; key(b"a") != key(b"a/b"));
    assert!(rt; key(&[0]) != StoreKey::root());
}
