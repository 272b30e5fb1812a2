//! What a listing takes of one key.

ghost use Rattle.std.specs.Prelude.{Decides};
ghost use Rattle.keys.specs.StoreKeys.{text};
ghost use Rattle.keys.specs.StorePrefixes.{prefix_text};
ghost use Rattle.listings.specs.Listings.{Reserved};
ghost use Rattle.listings.specs.Picks.{Picks, ChildOf};

use keys::row::Row;
use keys::store_key::StoreKey;
use keys::store_prefix::StorePrefix;

/// What is listed of the stored keys, by a prefix.
#[derive(Clone, Copy)]
pub(crate) enum Selection {
    /// All keys.
    Keys,
    /// The keys that begin with the prefix.
    KeysUnder,
    /// The keys whose parent is the prefix.
    DirectKeys,
    /// The prefix, a component and a slash, which the keys begin with.
    Prefixes,
    /// The same, where no component begins with `__`.
    Children,
}

/// The row that a selection takes of `key`.
pub(crate) fn pick(selection: Selection, key: &StoreKey, prefix: &StorePrefix) -> Option<Row>
    ensures { Picks selection (prefix_text prefix.now) (text key.now) result }
{
    match selection {
        Selection::Keys => Some(Row::from(key)),
        Selection::KeysUnder => pick_key_under(key, prefix),
        Selection::DirectKeys => pick_direct_key(key, prefix),
        Selection::Prefixes => pick_prefix(key, prefix),
        Selection::Children => pick_child(key, prefix),
    }
}

fn pick_key_under(key: &StoreKey, prefix: &StorePrefix) -> Option<Row>
    ensures { Picks Selection.KeysUnder (prefix_text prefix.now) (text key.now) result }
{
    key.has_prefix(prefix).then(|| Row::from(key))
}

fn pick_direct_key(key: &StoreKey, prefix: &StorePrefix) -> Option<Row>
    ensures { Picks Selection.DirectKeys (prefix_text prefix.now) (text key.now) result }
{
    (key.parent() == *prefix).then(|| Row::from(key))
}

fn pick_prefix(key: &StoreKey, prefix: &StorePrefix) -> Option<Row>
    ensures { Picks Selection.Prefixes (prefix_text prefix.now) (text key.now) result }
{
    let child = child_prefix(key, prefix)?;
    Some(Row::from(&child))
}

fn pick_child(key: &StoreKey, prefix: &StorePrefix) -> Option<Row>
    ensures { Picks Selection.Children (prefix_text prefix.now) (text key.now) result }
{
    let child = child_prefix(key, prefix)?;
    (!is_reserved(child.as_bytes())).then(|| Row::from(&child))
}

/// The prefix with the next component of `key` and a slash behind it; none where the key has no slash behind the prefix.
fn child_prefix(key: &StoreKey, prefix: &StorePrefix) -> Option<StorePrefix>
    ensures { ChildOf (prefix_text prefix.now) (text key.now) result }
{
    let bytes = key.as_bytes();
    let behind = bytes.strip_prefix(prefix.as_bytes())?;
    let len = behind.iter().position(|b| *b == b'/')?;
    StorePrefix::new(&bytes[0..prefix.as_bytes().len() + len + 1]).ok()
}

/// True if a component begins with two underscores.
fn is_reserved(bytes: &[u8]) -> bool
    ensures { Decides result (Reserved bytes.now) }
{
    bytes
        .split(|b| *b == b'/')
        .any(|component| component.starts_with(b"__"))
}
