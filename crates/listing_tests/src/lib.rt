//! Tests of listings, sizes and children.
#![tactic(auto)]

#[cfg(test)]
mod children;
#[cfg(test)]
mod directories;
#[cfg(test)]
mod fixture;
