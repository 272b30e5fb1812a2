//! Tests of scripts: what lines say, and how answers are written.
#![tactic(auto)]

#[cfg(test)]
mod lines;
#[cfg(test)]
mod runs;
