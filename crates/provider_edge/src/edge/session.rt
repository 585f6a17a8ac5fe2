//! The inputs of a session: an edge is connected, hears octets, and is lost or restarts.

mod connection;
mod hear;
mod peering;
