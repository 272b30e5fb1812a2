use keys::store_key::StoreKey;

/// A stored key with the length of its value.
#[derive(Clone, Copy)]
pub(crate) struct Slot {
    pub(crate) key: StoreKey,
    pub(crate) len: usize,
}
