//! What is set of an edge from outside, and its ticks.

mod circuit;
mod tick;
mod wire;
