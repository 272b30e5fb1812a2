//! How values, calls and answers of a look box are written.
#![tactic(auto)]

pub mod answer;
pub mod lines;
pub mod write;
