//! Links in memory.

use net_base::{List, MemLink};
use std::alloc::Global;
use std::process::Abort;

// The numbers of the calls that fail: the one with this number, and none for 0.
fn failing(rt: &impl Abort, alloc: Global, number: u64) -> List<u64> {
    let mut numbers = List::new(alloc);
    if number > 0 {
        numbers.push(number).expect(rt, "memory");
    }
    numbers
}

/// A link of which the call with this number fails, and none for 0.
pub fn link_of(rt: &impl Abort, alloc: Global, fails: u64) -> MemLink {
    MemLink::new(alloc, failing(rt, alloc, fails)).expect(rt, "memory")
}
