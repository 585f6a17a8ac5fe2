//! Choices among spokes that were worked out by hand, and the statuses that follow from them.

use crate::words::holds;
use pw_signalling::EndRole;
use pw_tlvs::PwStatus;
use spoke_redundancy::{Spoke, choose, status_to_tell};
use std::process::Abort;

// A spoke that would forward.
fn usable(priority: u8) -> Spoke {
    Spoke {
        priority,
        usable: true,
    }
}

// A spoke that is down.
fn unusable(priority: u8) -> Spoke {
    Spoke {
        priority,
        usable: false,
    }
}

// Of these spokes, the one at this place is chosen.
fn chooses(rt: &impl Abort, spokes: &[Spoke], place: Option<usize>) {
    holds(rt, choose(spokes) == place, "the chosen spoke");
}

#[test]
fn chooses_the_first_with_the_least_priority(rt: HostRuntime) {
    chooses(&rt, &[], None);
    chooses(&rt, &[usable(255)], Some(0));
    chooses(&rt, &[usable(2), usable(1), usable(1)], Some(1));
    chooses(&rt, &[usable(0), usable(1), usable(0)], Some(0));
}

#[test]
fn chooses_among_usable_spokes(rt: HostRuntime) {
    chooses(&rt, &[unusable(0)], None);
    chooses(
        &rt,
        &[unusable(0), usable(7), unusable(1), usable(5)],
        Some(3),
    );
    chooses(&rt, &[unusable(3), usable(3)], Some(1));
}

// An end of this role with these bits tells this status.
fn tells(rt: &impl Abort, role: EndRole, bits: u8, status: u32) {
    holds(
        rt,
        status_to_tell(role, bits) == PwStatus(status),
        "the status",
    );
}

#[test]
fn stands_by_where_it_is_not_chosen(rt: HostRuntime) {
    tells(&rt, EndRole::NotChosen, 0, 0x20);
    tells(&rt, EndRole::NotChosen, 6, 0x26);
    tells(&rt, EndRole::Chosen, 6, 0x06);
    tells(&rt, EndRole::Core, 0, 0);
    tells(&rt, EndRole::Mesh, 31, 0x1f);
    tells(&rt, EndRole::NotChosen, 0x20, 0x20);
    tells(&rt, EndRole::NotChosen, 0xff, 0xff);
    tells(&rt, EndRole::NotChosen, 0xc1, 0xe1);
    tells(&rt, EndRole::Chosen, 0xff, 0xff);
    tells(&rt, EndRole::Core, 0x20, 0x20);
}
