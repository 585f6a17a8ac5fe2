//! The ends of an edge that two wires join to two others, through their calls.
ghost use Rattle.std.specs.Prelude.{◌≡◌, ◌≤◌, [], None};
ghost use Rattle.net_base.specs.plan.Accepted.{IsChecked};

use crate::scenarios::{A, B, C, PATH, TWO_WIRES, plan_of};
use net_base::{EdgeId, Label, Offer, Plan, WireId};
use pw_ends::PwEnds;
use pw_messages::content_of;
use pw_signalling::{Binding, PwEnd, Told};
use pw_tlvs::PwStatus;
use std::alloc::Global;
use std::process::Abort;

// What an end tells by the offer of the first wire, which is of group 7.
fn told(rt: &impl Abort, plan: &Plan, status: Option<PwStatus>) -> Told
    ensures kind { result.kind ≤ 0x7FFF }
    ensures vlan { result.vlan ≡ None }
    ensures points { result.points ≡ [] }
{
    let wire = plan.wires.get(0).expect(rt, "a wire");
    let offer = Offer {
        vlan: None,
        ..wire.near
    };
    content_of(&offer, status)
}

// A label is advertised with this number by the end of this slot, or by none.
fn is_advertised(rt: &impl Abort, ends: &PwEnds, number: u32, slot: Option<usize>) {
    assert!(rt; ends.advertiser(number) == slot);
}

// Whether the end of a slot is idle, and holds no binding.
fn is_fresh(ends: &PwEnds, slot: usize) -> bool {
    slot < ends.len() && matches!(ends.end(slot), PwEnd::Idle(end) if end.remote().is_none())
}

// The label with this number is owned by the end of this slot, or by none.
fn is_owned(rt: &impl Abort, ends: &PwEnds, number: u32, slot: Option<usize>) {
    let label = Label::new(number).expect(rt, "a label");
    assert!(rt; ends.owner(label) == slot);
}

// A peer and a PW ID, and the slot of their end.
const SLOTS: [(EdgeId, u32, Option<usize>); 4] = [
    (B, 100, Some(0)),
    (C, 100, Some(1)),
    (B, 101, None),
    (A, 100, None),
];

// Both ends are idle and are found. Wire 1 passes the edge, wire 0 ends there, and wire 2 does not pass it.
fn stand(rt: &impl Abort, ends: &PwEnds) {
    assert!(rt; ends.len() == 2);
    assert!(rt; is_fresh(ends, 0) && is_fresh(ends, 1));
    for (peer, pw_id, slot) in SLOTS.as_slice() {
        assert!(rt; ends.find(*peer, *pw_id) == *slot);
    }
    assert!(rt; ends.passes(WireId(1)) && ends.ends_here(WireId(0)) && !ends.passes(WireId(2)));
}

// The switching point of a wire has its two ends: both ends of wire 0 are in the slots of the edge, and wire 1 has none.
fn switch(rt: &impl Abort, ends: &PwEnds) {
    let (first, past) = ends.slots_of(WireId(1));
    assert!(rt; ends.slots_of(WireId(0)) == (0, 2) && past <= first);
}

// The idle end of a slot advertises with the label of this number, or with none where it is 0.
fn advertises(rt: &impl Abort, ends: &mut PwEnds, slot: usize, told: &Told, number: u32)
    requires { told.now.kind ≤ 0x7FFF }
{
    assert!(rt; slot < ends.len());
    let advertised = match ends.end(slot) {
        PwEnd::Idle(_) => match ends.advertise(slot, told) {
            Some(label) => label.number(),
            None => 0,
        },
        _ => 0,
    };
    assert!(rt; advertised == number);
}

// Both ends advertise, with the first two of the edge's four labels.
fn advertise(rt: &impl Abort, plan: &Plan, ends: &mut PwEnds) {
    let told = told(rt, plan, Some(PwStatus(0)));
    advertises(rt, ends, 0, &told, 1_048_572);
    advertises(rt, ends, 1, &told, 1_048_573);
}

// Both ends own their labels, until the connection is lost and the edge restarts.
fn own_labels(rt: &impl Abort, plan: &Plan, ends: &mut PwEnds) {
    advertise(rt, plan, ends);
    ends.lose(B);
    assert!(rt; is_fresh(ends, 0));
    is_owned(rt, ends, 1_048_572, None);
    is_owned(rt, ends, 1_048_573, Some(1));
    ends.restarted();
    is_owned(rt, ends, 1_048_573, None);
    assert!(rt; ends.next_label() == 1_048_574);
}

// Both ends advertise, until one withdraws.
fn advertise_until_one_withdraws(rt: &impl Abort, plan: &Plan, ends: &mut PwEnds) {
    advertise(rt, plan, ends);
    is_advertised(rt, ends, 1_048_573, Some(1));
    assert!(rt; ends.len() == 2);
    ends.withdraw(1);
    is_advertised(rt, ends, 1_048_573, None);
    is_advertised(rt, ends, 1_048_572, Some(0));
}

// The first end has no label to advertise once the edge has given its four.
fn end_with_the_labels(rt: &impl Abort, plan: &Plan, ends: &mut PwEnds) {
    let told = told(rt, plan, None);
    for number in 1_048_572..1_048_576 {
        advertises(rt, ends, 0, &told, number);
        ends.lose(B);
    }
    advertises(rt, ends, 0, &told, 0);
    assert!(rt; is_fresh(ends, 0) && !ends.has_label());
}

// So many ticks pass.
fn tick_often(ends: &mut PwEnds, ticks: u16) {
    for _tick in 0..ticks {
        ends.tick();
    }
}

// The four labels that the first end has left wait for its peer, however many ticks pass. They rest from the next connection with it on,
// and after 64 ticks the least one is given again.
fn give_a_label_again(rt: &impl Abort, plan: &Plan, ends: &mut PwEnds) {
    end_with_the_labels(rt, plan, ends);
    tick_often(ends, 64);
    ends.met(C);
    tick_often(ends, 64);
    assert!(rt; !ends.has_label());
    ends.met(B);
    tick_often(ends, 63);
    assert!(rt; !ends.has_label());
    ends.tick();
    assert!(rt; ends.has_label());
    advertises(rt, ends, 0, &told(rt, plan, None), 1_048_572);
    is_owned(rt, ends, 1_048_572, Some(0));
}

// The end of a slot hears a mapping of label 17.
fn binds(rt: &impl Abort, plan: &Plan, ends: &mut PwEnds, slot: usize) {
    assert!(rt; slot < ends.len());
    let label = Label::new(17).expect(rt, "a label");
    let told = told(rt, plan, None);
    ends.on_mapping(slot, &Binding { label, told });
}

// Whether the end of a slot holds a binding.
fn is_bound(ends: &PwEnds, slot: usize) -> bool {
    slot < ends.len() && ends.end(slot).remote().is_some()
}

// The first end holds its binding where the second one's peer withdraws their group.
fn hold_a_binding(rt: &impl Abort, plan: &Plan, ends: &mut PwEnds) {
    binds(rt, plan, ends, 0);
    binds(rt, plan, ends, 1);
    ends.on_group_withdraw(C, 7);
    assert!(rt; is_bound(ends, 0));
    assert!(rt; !is_bound(ends, 1));
}

// What the ends of an edge have to do, each once they are opened.
#[derive(Clone, Copy)]
enum Deed {
    Switch,
    Stand,
    OwnLabels,
    AdvertiseUntilOneWithdraws,
    EndWithTheLabels,
    GiveALabelAgain,
    HoldABinding,
}

// The ends of an edge of a plan do a deed.
fn act(rt: &impl Abort, plan: &Plan, ends: &mut PwEnds, deed: Deed) {
    match deed {
        Deed::Switch => switch(rt, ends),
        Deed::Stand => stand(rt, ends),
        Deed::OwnLabels => own_labels(rt, plan, ends),
        Deed::AdvertiseUntilOneWithdraws => advertise_until_one_withdraws(rt, plan, ends),
        Deed::EndWithTheLabels => end_with_the_labels(rt, plan, ends),
        Deed::GiveALabelAgain => give_a_label_again(rt, plan, ends),
        Deed::HoldABinding => hold_a_binding(rt, plan, ends),
    }
}

// The ends of an edge of a plan are opened, and do a deed.
fn opened_do(rt: &impl Abort, alloc: Global, plan: &Plan, me: EdgeId, deed: Deed)
    requires { IsChecked plan.now }
{
    assert!(rt; usize::from(me.0) < plan.edges.len());
    let mut ends = PwEnds::open(alloc, plan, me).expect(rt, "memory");
    act(rt, plan, &mut ends, deed);
    drop(ends);
}

// The ends of an edge of a scenario do these deeds, each from the beginning.
fn do_deeds(rt: &impl Abort, alloc: Global, pieces: &[&str], me: EdgeId, deeds: &[Deed]) {
    let plan = plan_of(rt, alloc, pieces);
    for deed in deeds.iter() {
        opened_do(rt, alloc, &plan, me, *deed);
    }
    drop(plan);
}

const DEEDS: [Deed; 6] = [
    Deed::Stand,
    Deed::OwnLabels,
    Deed::AdvertiseUntilOneWithdraws,
    Deed::EndWithTheLabels,
    Deed::GiveALabelAgain,
    Deed::HoldABinding,
];

#[test]
fn ends_stand_advertise_and_bind(rt: HostRuntime) {
    do_deeds(&rt, rt.alloc(), TWO_WIRES, A, &DEEDS);
    do_deeds(&rt, rt.alloc(), PATH, B, &[Deed::Switch]);
}
