//! Scripts, and the Hello adjacencies of edges.

mod adjacencies;
mod discovery;
mod hellos;
mod independent;
mod plans;
mod scripts;
