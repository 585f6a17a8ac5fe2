//! The texts of what stops an edge.

use crate::octets::is_same;
use provider_edge::EdgeStop;
use std::alloc::Global;
use std::process::Abort;

// What stopped an edge says these words.
fn says(rt: &impl Abort, alloc: Global, stop: &EdgeStop, words: &str) {
    let told = format!(in alloc; "{stop}").expect(rt, "memory");
    assert!(rt; is_same(told.as_bytes(), words.as_bytes()), "{words}");
}

#[test]
fn say_what_stopped_it(rt: HostRuntime) {
    let alloc = rt.alloc();
    says(&rt, alloc, &EdgeStop::NoMemory, "out of memory");
    says(&rt, alloc, &EdgeStop::Stopped, "stopped");
}
