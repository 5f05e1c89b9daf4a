//! Tests of a station by its public functions: how it starts, how its rows are migrated, the worked examples of
//! docs/EXAMPLES.md, what it sends and saves byte for byte, and what it refuses. Then of a node over a link and a
//! store in memory: sends and receives that fail, a seat that stays open with no order while another one is served,
//! and what a thread reads on the board. And of schedules and traces.
#![tactic(auto)]

#[cfg(test)]
mod bytes;
#[cfg(test)]
mod glances;
#[cfg(test)]
mod migrations;
#[cfg(test)]
mod plays;
#[cfg(test)]
mod readers;
#[cfg(test)]
mod refusals;
#[cfg(test)]
mod schedules;
#[cfg(test)]
mod seats;
#[cfg(test)]
mod starts;
#[cfg(test)]
mod tables;
#[cfg(test)]
mod traces;
#[cfg(test)]
mod troubles;
