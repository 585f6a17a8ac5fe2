//! A customer's frame comes by a circuit, and is bridged.

mod bridge;
mod domains;
mod frame;
