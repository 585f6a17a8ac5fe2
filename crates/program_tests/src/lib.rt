//! Tests of what no clause of the program's crate says: whole calls, and the outside that no contract sees. They stand in a crate of
//! their own, since a crate with tests is proved twice, and in one, since each such crate loads and links all that its tests use.
#![tactic(auto)]

#[cfg(test)]
mod around;
#[cfg(test)]
mod audits;
#[cfg(test)]
mod bridges;
#[cfg(test)]
mod captures;
#[cfg(test)]
mod commands;
#[cfg(test)]
mod decodings;
#[cfg(test)]
mod discoveries;
#[cfg(test)]
mod exchanges;
#[cfg(test)]
mod faults;
#[cfg(test)]
mod files;
#[cfg(test)]
mod frames;
#[cfg(test)]
mod hierarchy;
#[cfg(test)]
mod migrations;
#[cfg(test)]
mod pings;
#[cfg(test)]
mod pseudowires;
#[cfg(test)]
mod replays;
#[cfg(test)]
mod sessions;
#[cfg(test)]
mod shelf;
#[cfg(test)]
mod signals;
#[cfg(test)]
mod sink;
#[cfg(test)]
mod switching_points;
