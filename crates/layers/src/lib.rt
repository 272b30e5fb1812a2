//! Layers over a store: each is a store again.
#![tactic(auto)]

pub mod countdown;
