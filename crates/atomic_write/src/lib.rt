//! Atomic writes over a store that can rename.
#![tactic(auto)]

pub mod atomic_write;
