//! The ground of a network at work, read edge by edge: what of it decides whom a frame reaches once all has settled.
#![tactic(auto)]

mod connected;
mod ground;
mod shape;
mod sound;

pub use ground::ground_of;
pub use shape::shape_of;
