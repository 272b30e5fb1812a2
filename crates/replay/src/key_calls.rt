//! Calls on keys and prefixes.
use crate::fields::{bytes_of, cut, written};
use crate::outcome::{Failure, Outcome, accepted, answered, ordered};
use atomic_write::atomic_write::temporary_key;
use keys::store_key::StoreKey;
use keys::store_prefix::StorePrefix;
use order::total_order::TotalOrder;
use std::alloc::Global;

/// What is asked of a key.
#[derive(Clone, Copy)]
pub enum KeyCall {
    /// Whether the bytes are one.
    Validity,
    Parent,
    Prefix,
    /// The temporary key of an export.
    Temporary,
    HasPrefix,
    Order,
}

/// What is asked of a prefix.
#[derive(Clone, Copy)]
pub enum PrefixCall {
    /// Whether the bytes are one.
    Validity,
    Key,
    Parent,
    Order,
}

/// What is made of the bytes that a word stands for.
fn made<T, E: Drop, F: FnOnce(&[u8]) -> Result<T, E>>(
    word: &[u8],
    heap: Global,
    make: F,
) -> Result<T, Failure>
    requires { F.IsAlwaysCallable make }
{
    let bytes = bytes_of(word, heap)?;
    accepted(make(bytes.as_slice()))
}

impl KeyCall {
    /// The call of that name.
    pub fn named(name: &[u8]) -> Option<Self> {
        match name {
            b"key" => Some(KeyCall::Validity),
            b"key_parent" => Some(KeyCall::Parent),
            b"key_prefix" => Some(KeyCall::Prefix),
            b"temporary" => Some(KeyCall::Temporary),
            b"has_prefix" => Some(KeyCall::HasPrefix),
            b"key_order" => Some(KeyCall::Order),
            _ => None,
        }
    }

    /// The port's answer.
    pub fn answer(self, words: &[u8], heap: Global) -> Outcome {
        let (first, second) = cut(words, b' ');
        let first = made(first, heap, StoreKey::new)?;
        match self {
            KeyCall::Validity => answered(b"ok", heap),
            KeyCall::Parent => Ok(written(first.parent().as_bytes(), heap)?),
            KeyCall::Prefix => Ok(written(first.to_prefix().as_bytes(), heap)?),
            KeyCall::Temporary => Ok(written(accepted(temporary_key(&first))?.as_bytes(), heap)?),
            KeyCall::HasPrefix => {
                if first.has_prefix(&made(second, heap, StorePrefix::new)?) {
                    answered(b"true", heap)
                } else {
                    answered(b"false", heap)
                }
            }
            KeyCall::Order => {
                let second = made(second, heap, StoreKey::new)?;
                ordered(first.compare(&second), heap)
            }
        }
    }
}

impl PrefixCall {
    /// The call of that name.
    pub fn named(name: &[u8]) -> Option<Self> {
        match name {
            b"prefix" => Some(PrefixCall::Validity),
            b"prefix_key" => Some(PrefixCall::Key),
            b"prefix_parent" => Some(PrefixCall::Parent),
            b"prefix_order" => Some(PrefixCall::Order),
            _ => None,
        }
    }

    /// The port's answer.
    pub fn answer(self, words: &[u8], heap: Global) -> Outcome {
        let (first, second) = cut(words, b' ');
        let first = made(first, heap, StorePrefix::new)?;
        match self {
            PrefixCall::Validity => answered(b"ok", heap),
            PrefixCall::Key => Ok(written(accepted(StoreKey::try_from(&first))?.as_bytes(), heap)?),
            PrefixCall::Parent => match first.parent() {
                Some(parent) => Ok(written(parent.as_bytes(), heap)?),
                None => answered(b"none", heap),
            },
            PrefixCall::Order => {
                let second = made(second, heap, StorePrefix::new)?;
                ordered(first.compare(&second), heap)
            }
        }
    }
}
