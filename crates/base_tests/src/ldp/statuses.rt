//! Statuses that were worked out by hand.

use crate::words::holds;
use pw_status::{Method, combine, fails, method_of, standby};
use pw_tlvs::PwStatus;

#[test]
fn knows_the_bits(rt: HostRuntime) {
    holds(&rt, fails(PwStatus(0x10)), "fails");
    holds(&rt, !fails(PwStatus(0x60)), "does not fail");
    holds(&rt, standby(PwStatus(0x30)), "stands by");
    holds(&rt, !standby(PwStatus(0x5f)), "does not stand by");
    holds(
        &rt,
        combine(6, true) == PwStatus(0x26),
        "the status that stands by",
    );
    holds(
        &rt,
        combine(6, false) == PwStatus(0x06),
        "the status that does not",
    );
}

// A status is told where both ends do, and else the label is withdrawn.
#[test]
fn tells_a_status_where_both_ends_do(rt: HostRuntime) {
    holds(&rt, method_of(true, None) == Method::Told, "to nobody yet");
    holds(
        &rt,
        method_of(true, Some(Some(PwStatus(0)))) == Method::Told,
        "both",
    );
    holds(
        &rt,
        method_of(true, Some(None)) == Method::Withdrawn,
        "one end",
    );
    holds(
        &rt,
        method_of(false, None) == Method::Withdrawn,
        "the other end",
    );
}
