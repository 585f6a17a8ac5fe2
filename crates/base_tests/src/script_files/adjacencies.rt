//! How long adjacencies live.
use crate::script_files::hellos::{hears, said};
use crate::script_files::plans::{A, B, C, adjacencies};
use crate::words::holds;
use ldp_discovery::{Adjacencies, Heard};
use std::alloc::Global;
use std::process::Abort;

// How many ticks the adjacency with B lives, 70,000 at most.
fn ticks_lived(a: &mut Adjacencies) -> u32 {
    for lived in 0..70_000 {
        if !a.lives(B) {
            return lived;
        }
        a.tick();
    }
    70_000
}

// An adjacency lives for so many ticks, where the edge has proposed a hold time and then hears another one.
fn lives(rt: &impl Abort, alloc: Global, own: u16, theirs: u16, ticks: u32) {
    let mut a = adjacencies(rt, alloc, A);
    let mut b = adjacencies(rt, alloc, B);
    said(rt, &mut a, B, own);
    let hello = said(rt, &mut b, A, theirs);
    hears(rt, alloc, &mut a, &hello, Heard::Fresh);
    holds(rt, ticks_lived(&mut a) == ticks, "the smaller hold time");
}

// The own hold time, the one that is heard, and the ticks.
const HOLDS: [(u16, u16, u32); 9] = [
    (45, 15, 15),
    (15, 45, 15),
    (0, 0, 45),
    (0, 65535, 45),
    (46, 0, 45),
    (1, 65534, 1),
    (65535, 1, 1),
    (65535, 65534, 65534),
    (65535, 65535, 70_000),
];

#[test]
fn lives_for_the_smaller_hold_time(rt: HostRuntime) {
    for (own, theirs, ticks) in HOLDS.as_slice() {
        lives(&rt, rt.alloc(), *own, *theirs, *ticks);
    }
}

// A tick passes, at which no adjacency but the one with B lapses, and that one where its time is over; and then it lives or not.
fn passes(rt: &impl Abort, a: &mut Adjacencies, is_over: bool, is_alive: bool) {
    let lapsed = a.tick();
    holds(rt, lapsed.contains(B) == is_over, "lapses or not");
    holds(rt, !lapsed.contains(C), "no other one lapses");
    holds(rt, a.lives(B) == is_alive, "lives or not");
}

// The same Hello, of the hold time 3, is heard three times. The edge proposes the hold time 1 behind the first.
fn hears_again(rt: &impl Abort, alloc: Global, a: &mut Adjacencies, hello: &[u8]) {
    hears(rt, alloc, a, hello, Heard::Fresh);
    said(rt, a, B, 1);
    passes(rt, a, false, true);
    passes(rt, a, false, true);
    hears(rt, alloc, a, hello, Heard::Fresh);
    passes(rt, a, true, false);
    passes(rt, a, false, false);
    hears(rt, alloc, a, hello, Heard::Fresh);
    holds(rt, a.lives(B), "lives again");
}

// A Hello that is heard again begins the hold time anew, by the proposal of that moment; a proposal alone changes nothing.
#[test]
fn goes_by_the_proposal_of_the_moment(rt: HostRuntime) {
    let mut a = adjacencies(&rt, rt.alloc(), A);
    let mut b = adjacencies(&rt, rt.alloc(), B);
    let hello = said(&rt, &mut b, A, 3);
    hears_again(&rt, rt.alloc(), &mut a, &hello);
}
