//! A packet comes from a neighbour.

mod packet;
mod ping;
pub(crate) mod stitched;
mod switched;
mod verify;
