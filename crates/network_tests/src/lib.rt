//! Tests of edges, of edges in independent mode and of networks by their own calls. They stand apart from those of the crates below an edge
//! and from those of the commands, so that they need not wait for the program; and in one crate, since each crate of tests loads and links
//! all that its tests use.
#![tactic(auto)]

#[cfg(test)]
mod edge;
#[cfg(test)]
mod independent;
#[cfg(test)]
mod links;
#[cfg(test)]
mod network;
#[cfg(test)]
mod octets;
#[cfg(test)]
mod scenarios;
