//! Runs of small networks, and of the largest one that the limit lets be.

mod given_frames;
mod hierarchy;
mod labels;
mod largest;
mod lent_maps;
mod limit;
mod paths;
mod pseudowires;
mod services;
mod sessions;
mod steps;
mod traces;
