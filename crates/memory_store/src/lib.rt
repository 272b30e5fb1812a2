//! A store in memory.
#![tactic(auto)]

mod find;
pub mod memory_store;
mod row;
mod slot;
mod table;
