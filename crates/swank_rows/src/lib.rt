//! Sessions as tables: what goes in and what must come out, for the whole program over a source and a sink in memory.
//!
//! There is nothing here but tests. Most are one table, and run [`swank_command::run`] once for each of its sessions; `session.rt` says how a
//! table is read, and owns what a run leaves behind, so that a test has no more than the answer whether its table holds.
#![tactic(auto)]

#[cfg(test)]
mod client;
#[cfg(test)]
mod endurance;
#[cfg(test)]
mod requests;
#[cfg(test)]
mod session;
#[cfg(test)]
mod tests;
