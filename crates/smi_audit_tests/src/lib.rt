//! Tests of an audit by its public functions: traces that no safe world leaves, journals that are merged, and what an
//! entry waits for.
#![tactic(auto)]

#[cfg(test)]
mod entries;
#[cfg(test)]
mod merges;
#[cfg(test)]
mod unsafe_traces;
