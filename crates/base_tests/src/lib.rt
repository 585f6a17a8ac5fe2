//! Tests of the crates below an edge: plans, tables of addresses, LDP and pseudowires, frames, packets, captures, texts, scenarios, scripts
//! and reports. They stand in a crate of their own, since a crate with tests is proved twice, and in one, since each such crate loads and
//! links all that its tests use; `network_tests` has those of an edge and of networks.
#![tactic(auto)]

#[cfg(test)]
mod audits;
#[cfg(test)]
mod captures;
#[cfg(test)]
mod faults;
#[cfg(test)]
mod frames;
#[cfg(test)]
mod hex;
#[cfg(test)]
mod ldp;
#[cfg(test)]
mod links;
#[cfg(test)]
mod messages;
#[cfg(test)]
mod migrations;
#[cfg(test)]
mod pings;
#[cfg(test)]
mod plans;
#[cfg(test)]
mod rehearsals;
#[cfg(test)]
mod reports;
#[cfg(test)]
mod rows;
#[cfg(test)]
mod scenarios;
#[cfg(test)]
mod script_files;
#[cfg(test)]
mod steps;
#[cfg(test)]
mod tables;
#[cfg(test)]
mod texts;
#[cfg(test)]
mod withdrawals;
#[cfg(test)]
mod words;
