//! Keys and prefixes of a store: checked once, when they are made.
#![tactic(auto)]

mod buffer;
pub mod row;
pub mod short_text;
pub mod store_key;
pub mod store_prefix;
mod text;
