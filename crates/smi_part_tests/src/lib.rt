//! Tests of what is below a station, by public functions: grants, links and datagrams, tree files and look-ups,
//! watcher lists, boards, publishers and links between stations. They are here so that those crates are proved
//! once.
#![tactic(auto)]

#[cfg(test)]
mod boards;
#[cfg(test)]
mod commands;
#[cfg(test)]
mod grants;
#[cfg(test)]
mod links;
#[cfg(test)]
mod messages;
#[cfg(test)]
mod publishing;
#[cfg(test)]
mod trees;
#[cfg(test)]
mod watchers;
