//! Tests of stores, layers and exports.
#![tactic(auto)]

#[cfg(test)]
mod exports;
#[cfg(test)]
mod fixture;
#[cfg(test)]
mod memory;
