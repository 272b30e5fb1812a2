use keys::store_key::StoreKey;
use storage::fault::Fault;

/// The key of this text, the root key where the text is none.
pub(crate) fn key(text: &[u8]) -> StoreKey {
    StoreKey::new(text).unwrap_or(StoreKey::root())
}

/// The number, layer and step of a refusal.
pub(crate) fn refusal(f: Fault) -> (u8, u16, u8) {
    (f.cause.number(), f.depth, f.step)
}

/// The number of a refusal.
pub(crate) fn number(f: Fault) -> u8 {
    f.cause.number()
}
