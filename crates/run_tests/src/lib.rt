//! Tests of runs.
#![tactic(auto)]

#[cfg(test)]
mod cuts;
#[cfg(test)]
mod every_cut;
#[cfg(test)]
mod fixture;
#[cfg(test)]
mod pairs;
