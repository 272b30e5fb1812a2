//! Scripts of a look box: what a line says.
#![tactic(auto)]

pub mod command;
pub mod hex;
pub mod value;
mod words;
