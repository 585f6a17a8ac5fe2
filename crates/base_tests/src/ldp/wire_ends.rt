//! One end through its calls, with values that were worked out by hand.

use crate::steps::label;
use crate::words::holds;
use net_base::{Down, Label, Text};
use pw_signalling::{Binding, EndRole, PwEnd, PwIdle, Told};
use pw_tlvs::{Points, PwStatus};
use std::process::Abort;

// What comes from the peer. The label 0 stands for none.
#[derive(Clone, Copy)]
enum Came {
    // A mapping to label 17, with the C bit or not, of this PW type and with this MTU.
    Mapping(bool, u16, Option<u16>),
    // A status, and one of a group.
    Status(u32),
    GroupStatus(u32, u32),
    // A withdrawal of a label, and one of a group.
    Withdraw(u32),
    GroupWithdraw(u32),
    // A release of a label.
    Release(u32),
    // The session is lost.
    Lost,
}

// A call of the end's own state.
#[derive(Clone, Copy)]
enum Own {
    // It advertises label 16.
    Advertise,
    Tell(u32),
    Withdraw,
    Renew,
}

// What an end has to be.
#[derive(Clone, Copy)]
enum Is {
    // It forwards, or is down for this cause, as an end of this role with these failure bits.
    Down(EndRole, u8, Option<Down>),
    // It is bound, or not.
    Bound(bool),
    // It advertises a label with this status, has withdrawn a label, or is idle and declined or not.
    Advertised(u32, u32),
    Withdrawing(u32),
    Idle(bool),
}

// A step of a test.
#[derive(Clone, Copy)]
enum Step {
    Came(Came),
    Own(Own),
    Is(Is),
}

// What an end tells: Ethernet of group 7, and status 0.
fn told(rt: &impl Abort, c: bool, kind: u16, mtu: Option<u16>) -> Told {
    Told {
        c,
        kind,
        group: 7,
        mtu,
        vlan: None,
        vccv: None,
        description: Text::read(b"").expect(rt, "a text"),
        status: Some(PwStatus(0)),
        points: Points::empty(),
    }
}

// Takes what came.
fn comes(rt: &impl Abort, end: PwEnd, came: Came) -> PwEnd {
    match came {
        Came::Mapping(c, kind, mtu) => end.on_mapping(Binding {
            label: label(rt, 17),
            told: told(rt, c, kind, mtu),
        }),
        Came::Status(bits) => end.on_status(PwStatus(bits)),
        Came::GroupStatus(group, bits) => end.on_group_status(group, PwStatus(bits)),
        Came::Withdraw(number) => end.on_withdraw(Label::new(number)),
        Came::GroupWithdraw(group) => end.on_group_withdraw(group),
        Came::Release(number) => end.on_release(Label::new(number)),
        Came::Lost => end.lost(),
    }
}

// Makes a call of the end's own state, where it is in that state.
fn calls(rt: &impl Abort, end: PwEnd, own: Own) -> PwEnd {
    match (end, own) {
        (PwEnd::Idle(end), Own::Advertise) => {
            let told = told(rt, true, 5, Some(1500));
            PwEnd::Advertised(end.advertise(label(rt, 16), told))
        }
        (PwEnd::Idle(end), Own::Renew) => PwEnd::Idle(end.renew()),
        (PwEnd::Advertised(end), Own::Tell(bits)) => PwEnd::Advertised(end.tell(PwStatus(bits))),
        (PwEnd::Advertised(end), Own::Withdraw) => PwEnd::Withdrawing(end.withdraw()),
        (end, _) => end,
    }
}

// Whether the end is so.
fn agrees(end: &PwEnd, is: Is) -> bool {
    match (is, end) {
        (Is::Down(role, bits, down), _) => end.why_down(role, bits) == down,
        (Is::Bound(bound), _) => end.remote().is_some() == bound,
        (Is::Advertised(number, bits), PwEnd::Advertised(end)) => {
            end.label().number() == number && end.told().status == Some(PwStatus(bits))
        }
        (Is::Withdrawing(number), PwEnd::Withdrawing(end)) => end.label().number() == number,
        (Is::Idle(declined), PwEnd::Idle(end)) => end.is_declined() == declined,
        _ => false,
    }
}

// Takes a step.
fn take(rt: &impl Abort, end: PwEnd, step: Step) -> PwEnd {
    match step {
        Step::Came(came) => comes(rt, end, came),
        Step::Own(own) => calls(rt, end, own),
        Step::Is(is) => {
            holds(rt, agrees(&end, is), "the end");
            end
        }
    }
}

// A new end takes steps.
fn plays(rt: &impl Abort, steps: &[Step]) {
    let mut end = PwEnd::Idle(PwIdle::new());
    for step in steps {
        end = take(rt, end, *step);
    }
}

// Both ends tell raw Ethernet with a control word, and the MTU 1500.
const UP: Step = Step::Came(Came::Mapping(true, 5, Some(1500)));

const FIRST_CAUSE: [Step; 7] = [
    Step::Is(Is::Down(EndRole::Mesh, 1, Some(Down::NoLocal))),
    Step::Own(Own::Advertise),
    Step::Is(Is::Down(EndRole::Mesh, 1, Some(Down::NoRemote))),
    UP,
    Step::Is(Is::Down(EndRole::NotChosen, 1, Some(Down::LocalFault))),
    Step::Is(Is::Down(EndRole::NotChosen, 0, Some(Down::Standby))),
    Step::Is(Is::Down(EndRole::Mesh, 0, None)),
];

const BOTH_AGREE: [Step; 9] = [
    Step::Own(Own::Advertise),
    Step::Came(Came::Mapping(true, 5, None)),
    Step::Is(Is::Down(EndRole::Mesh, 0, None)),
    Step::Came(Came::Mapping(true, 5, Some(1400))),
    Step::Is(Is::Down(EndRole::Mesh, 1, Some(Down::Mtu))),
    Step::Came(Came::Mapping(true, 4, Some(1400))),
    Step::Is(Is::Down(EndRole::Mesh, 1, Some(Down::Kind))),
    Step::Came(Came::Mapping(false, 4, Some(1400))),
    Step::Is(Is::Down(EndRole::Mesh, 1, Some(Down::CBit))),
];

const STATUSES: [Step; 12] = [
    Step::Own(Own::Advertise),
    UP,
    Step::Came(Came::Status(0x30)),
    Step::Is(Is::Down(EndRole::Core, 0, Some(Down::RemoteFault))),
    Step::Came(Came::GroupStatus(7, 0x20)),
    Step::Is(Is::Down(EndRole::Core, 0, Some(Down::Standby))),
    Step::Is(Is::Down(EndRole::Chosen, 0, None)),
    Step::Came(Came::GroupStatus(8, 1)),
    Step::Came(Came::GroupWithdraw(8)),
    Step::Is(Is::Down(EndRole::Mesh, 0, None)),
    Step::Came(Came::GroupWithdraw(7)),
    Step::Is(Is::Bound(false)),
];

const WITHDRAWS: [Step; 14] = [
    Step::Own(Own::Advertise),
    UP,
    Step::Is(Is::Advertised(16, 0)),
    Step::Own(Own::Tell(2)),
    Step::Is(Is::Advertised(16, 2)),
    Step::Is(Is::Bound(true)),
    Step::Own(Own::Withdraw),
    Step::Is(Is::Withdrawing(16)),
    Step::Is(Is::Bound(true)),
    Step::Came(Came::Release(17)),
    Step::Is(Is::Withdrawing(16)),
    Step::Came(Came::Release(16)),
    Step::Is(Is::Idle(false)),
    Step::Is(Is::Bound(true)),
];

const DECLINED: [Step; 10] = [
    Step::Own(Own::Advertise),
    UP,
    Step::Came(Came::Withdraw(16)),
    Step::Is(Is::Bound(true)),
    Step::Came(Came::Withdraw(17)),
    Step::Is(Is::Bound(false)),
    Step::Came(Came::Release(0)),
    Step::Is(Is::Idle(true)),
    Step::Own(Own::Renew),
    Step::Is(Is::Idle(false)),
];

const LOST: [Step; 7] = [
    Step::Own(Own::Advertise),
    UP,
    Step::Came(Came::Release(0)),
    Step::Is(Is::Idle(true)),
    Step::Came(Came::Lost),
    Step::Is(Is::Idle(false)),
    Step::Is(Is::Bound(false)),
];

#[test]
fn goes_through_its_calls(rt: HostRuntime) {
    plays(&rt, FIRST_CAUSE.as_slice());
    plays(&rt, BOTH_AGREE.as_slice());
    plays(&rt, STATUSES.as_slice());
    plays(&rt, WITHDRAWS.as_slice());
    plays(&rt, DECLINED.as_slice());
    plays(&rt, LOST.as_slice());
}
