//! Edges take what comes of connections. Their wire is off, so that nothing but sessions is told.

use crate::edge::proposals::{KEEP_ALIVE_OF_A, KEEP_ALIVE_OF_B, PROPOSAL_OF_A, PROPOSAL_OF_B};
use crate::edge::steps::{Step, plays};
use crate::scenarios::{A, B, SITES};
use net_base::{EdgeId, Reason, StateName};
use std::alloc::Global;
use std::process::Abort;

const OFF: [Step; 2] = [Step::Wire(0, false), Step::Gives(0)];

const COMES_UP_AND_IS_LOST: [Step; 20] = [
    Step::Connected(A),
    Step::Gives(3),
    Step::Put(0, A, PROPOSAL_OF_B),
    Step::Session(A, StateName::OpenSent),
    Step::Connected(A),
    Step::Idle,
    Step::Hears(A, PROPOSAL_OF_A),
    Step::Told(1, StateName::OpenRec),
    Step::Put(1, A, KEEP_ALIVE_OF_B),
    // The KeepAlive in two pieces.
    Step::Hears(A, "0001000e0a000001"),
    Step::Gives(0),
    Step::Held(A, 8),
    Step::Hears(A, "00000201000400000002"),
    Step::Told(0, StateName::Operational),
    Step::Held(A, 0),
    Step::Lost(A),
    Step::Told(0, StateName::Ended(Reason::Closed)),
    Step::Gone(A),
    Step::Session(A, StateName::NonExistent),
    Step::Calls(2),
];

/// A proposal of B for 10.0.0.9, and the Notification that refuses it (RFC 5036 section 3.5.1.2.2).
const FOR_ANOTHER: &str =
    "000100200a000002000002000016000000010500000e000100b4000010000a0000090000";

const REFUSAL: &str = "0001001c0a000001000000010012000000010300000a80000010000000010200";

const REFUSES_ANOTHER_RECEIVER: [Step; 12] = [
    Step::Connected(B),
    Step::Calls(0),
    Step::Hears(B, PROPOSAL_OF_B),
    Step::Put(0, B, PROPOSAL_OF_A),
    Step::Put(1, B, KEEP_ALIVE_OF_A),
    Step::Session(B, StateName::OpenRec),
    Step::Restart,
    Step::Gone(B),
    Step::Connected(B),
    Step::Hears(B, FOR_ANOTHER),
    Step::Told(1, StateName::Ended(Reason::BadReceiver)),
    Step::Put(2, B, REFUSAL),
];

const ENDS_WHERE_A_PUT_FAILS: [Step; 5] = [
    Step::Connected(B),
    Step::Hears(B, PROPOSAL_OF_B),
    Step::Calls(1),
    Step::Gives(2),
    Step::Told(0, StateName::Ended(Reason::LinkFault)),
];

const EXPIRES: [Step; 5] = [
    Step::Connected(B),
    Step::Ticks(179),
    Step::Session(B, StateName::Initialized),
    Step::Ticks(1),
    Step::Gone(B),
];

// The edge with this place, whose wire is off, does steps; the call of its link with this number fails, and none for 0.
fn plays_off(rt: &impl Abort, alloc: Global, me: EdgeId, fails: u64, steps: &[Step]) {
    plays(rt, alloc, SITES, me, fails, &OFF, steps);
}

#[test]
fn comes_up_and_ends(rt: HostRuntime) {
    let alloc = rt.alloc();
    plays_off(&rt, alloc, B, 0, &COMES_UP_AND_IS_LOST);
    plays_off(&rt, alloc, A, 0, &REFUSES_ANOTHER_RECEIVER);
    plays_off(&rt, alloc, A, 1, &ENDS_WHERE_A_PUT_FAILS);
    plays_off(&rt, alloc, A, 0, &EXPIRES);
}
