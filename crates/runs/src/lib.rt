//! Runs of the atomic write adapter's calls.
#![tactic(auto)]

pub mod call;
pub mod examples;
mod perform;
pub mod run;
