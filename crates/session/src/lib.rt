//! Performs the calls of a script on a box: an atomic write adapter over a store.
#![tactic(auto)]

pub mod calls;
pub mod run;
