//! Tests of byte ranges, extraction, read lists and patches.
#![tactic(auto)]

#[cfg(test)]
mod extracts;
#[cfg(test)]
mod lists;
#[cfg(test)]
mod patching;
#[cfg(test)]
mod ranging;
