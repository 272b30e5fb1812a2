//! Tests of keys, prefixes, rows and the sorted list.
#![tactic(auto)]

#[cfg(test)]
mod lists;
#[cfg(test)]
mod prefixes;
#[cfg(test)]
mod rows;
#[cfg(test)]
mod store_keys;
