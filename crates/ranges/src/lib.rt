//! Byte ranges, their order, and read lists of ranges.
#![tactic(auto)]

pub mod byte_range;
pub mod read_list;
