//! Tests of rows, of the stores that keep them, of stations over each store, and of the commands over readers, writers
//! and stores of their own, by public functions: here, so that the crates are proved once.
#![tactic(auto)]

#[cfg(test)]
mod commands;
#[cfg(test)]
mod listing;
#[cfg(test)]
mod plays;
#[cfg(test)]
mod rows;
#[cfg(test)]
mod stable;
