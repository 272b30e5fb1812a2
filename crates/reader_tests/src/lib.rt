//! Tests of readers, and of extraction through them.
#![tactic(auto)]

#[cfg(test)]
mod extracts;
#[cfg(test)]
mod fixture;
#[cfg(test)]
mod seeks;
#[cfg(test)]
mod values;
