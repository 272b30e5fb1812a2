//! Total orders, and the sorted list without repeats over a caller's slice.
#![tactic(auto)]

pub mod sorted_list;
pub mod total_order;
