//! The number by which a spoke is chosen no more, or is chosen, as long as the others stand (RFC 6870).
ghost use Rattle.std.specs.Prelude.{◌≡◌, ◌<◌, ◌==◌, ◌&&◌, not, None, length};
ghost use Rattle.net_base.specs.plan.Accepted.{IsChecked};
ghost use Rattle.network_model.specs.State.{NetworkState};
ghost use Rattle.survey_reach.specs.{Ground.{IsGroundOf, number_of}};
ghost use Rattle.survey_reach.specs.FaultList.{are_rivals, least_rival, lesser, other_number, renumbered, start_together};

use crate::Ground;
use net_base::{Class, EdgeId, Plan, WireId, WirePlan};
use survey_laws::Fault;

/// The greatest priority number.
const LAST: u8 = 255;

// The lesser one of a number, where there is one, and another.
fn lesser(least: Option<u8>, number: u8) -> Option<u8>
    ensures { result ≡ lesser least number }
{
    match least {
        Some(least) => Some(least.min(number)),
        None => Some(number),
    }
}

// Whether two paths start at one edge.
fn start_together(path: &[EdgeId], other: &[EdgeId]) -> bool
    ensures { result ≡ start_together path.now other.now }
{
    match (path, other) {
        ([a, ..], [b, ..]) => a.0 == b.0,
        _ => false,
    }
}

// Whether another wire is a rival of the one at a place: both are spokes of one service from one edge.
fn is_rival(wire: usize, row: &WirePlan, place: usize, other: &WirePlan) -> bool
    ensures { result ≡ (not (place == wire) && are_rivals row.now other.now) }
{
    place != wire
        && ((row.class == Class::Spoke && other.class == Class::Spoke)
            && (row.service.0 == other.service.0
                && start_together(row.path.as_slice(), other.path.as_slice())))
}

// The least number of the other spokes of the service from the same edge.
#[tactic(auto, using(crate::proofs::RivalLemmas::rival_steps))]
fn least_rival(plan: &Plan, ground: &Ground, wire: usize, row: &WirePlan) -> Option<u8>
    ghost before: { NetworkState }
    requires { IsGroundOf plan.now before ground.now }
    ensures { result ≡ least_rival (number_of plan.now before) wire row.now None 0 plan.now.wires }
{
    let wires = plan.wires.as_slice();
    let mut least = None;
    for other in 0..wires.len() {
        let number = ground.numbers[other];
        if is_rival(wire, row, other, &wires[other]) {
            least = lesser(least, number);
        }
    }
    least
}

// Another number by which a spoke is chosen that was not, or is not that was.
fn other_number(had: u8, least: u8) -> u8
    ensures { result ≡ other_number had least }
{
    if had <= least {
        LAST
    } else {
        least.saturating_sub(1)
    }
}

// The fault that gives a spoke another such number, where there is one.
fn renumbered(wire: WireId, had: u8, least: Option<u8>) -> Option<Fault>
    ensures { result ≡ renumbered wire.0 had least }
{
    match least {
        Some(least) => {
            let number = other_number(had, least);
            if number == had {
                None
            } else {
                Some(Fault::Priority {
                    wire,
                    priority: number,
                })
            }
        }
        None => None,
    }
}

/// The fault that gives a spoke another number, where there is one that matters.
#[tactic(auto, using(crate::proofs::RivalLemmas::number_had))]
pub(crate) fn priority_fault(
    plan: &Plan,
    ground: &Ground,
    wire: usize,
    row: &WirePlan,
) -> Option<Fault>
    ghost before: { NetworkState }
    requires checked { IsChecked plan.now }
    requires ground { IsGroundOf plan.now before ground.now }
    requires wire { wire < length plan.now.wires }
    ensures { result ≡ renumbered wire (number_of plan.now before wire) (least_rival (number_of plan.now before) wire row.now None 0 plan.now.wires) }
{
    renumbered(
        WireId(wire as u16),
        ground.numbers[wire],
        least_rival(plan, ground, wire, row),
    )
}
