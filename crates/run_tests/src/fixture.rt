//! Calls, and what their answers say.

use keys::row::Row;
use keys::store_key::StoreKey;
use keys::store_prefix::StorePrefix;
use runs::call::{Answer, Call};
use std::alloc::{AllocError, Global};

pub fn key(text: &[u8]) -> StoreKey {
    StoreKey::new(text).unwrap_or(StoreKey::root())
}

pub fn prefix(text: &[u8]) -> StorePrefix {
    StorePrefix::new(text).unwrap_or(StorePrefix::root())
}

/// An export of a value.
pub fn set(text: &[u8], value: &[u8], heap: Global) -> Result<Call, AllocError> {
    Ok(Call::Set(key(text), Vec::from_slice(heap, value)?))
}

/// An erasure of one key, as a list.
pub fn erase_one(text: &[u8], heap: Global) -> Result<Call, AllocError> {
    Ok(Call::EraseMany(vec![in heap; Row::from(&key(text))]?))
}

/// Whether the i-th answer, of a write, is that it is done, or the number, layer and step of its refusal.
pub fn told(answers: &[Answer], i: usize) -> Option<Result<(), (u8, u16, u8)>> {
    match answers.get(i) {
        Some(Answer::Wrote(r)) => Some((*r).map_err(|f| (f.cause.number(), f.depth, f.step))),
        _ => None,
    }
}

/// Whether the i-th answer is a reading that filled its output with these bytes.
pub fn read(answers: &[Answer], i: usize, bytes: &[u8]) -> bool {
    match answers.get(i) {
        Some(Answer::Read(Ok(_), out)) => out.as_slice() == bytes,
        _ => false,
    }
}

/// How many keys the i-th answer, of a listing, lists.
pub fn listed(answers: &[Answer], i: usize) -> Option<usize> {
    match answers.get(i) {
        Some(Answer::Listed(Ok(n), _)) => Some(*n),
        _ => None,
    }
}
