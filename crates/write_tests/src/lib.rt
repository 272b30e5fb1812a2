//! Tests of offset writes, partial readings and erasures of many keys.
#![tactic(auto)]

#[cfg(test)]
mod erasures;
#[cfg(test)]
mod fixture;
#[cfg(test)]
mod offsets;
