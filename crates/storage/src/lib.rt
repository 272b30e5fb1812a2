//! What a store is: faults, the interface, and what is written once over it.
#![tactic(auto)]

pub mod erasing;
pub mod examples;
pub mod fault;
pub mod patching;
pub mod read_back;
pub mod reads;
pub mod storage_sync;
