//! Listings and sizes, written once over the interface.
#![tactic(auto)]

mod gather;
pub mod listing;
mod pick;
pub mod stored_keys;
