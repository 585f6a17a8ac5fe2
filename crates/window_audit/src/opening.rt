//! Where a window opens.
ghost use Rattle.std.specs.Prelude.{◌≡◌, ◌≤◌, ◌==◌, ◌&&◌, not, length};
ghost use Rattle.net_base.specs.{plan.Accepted.{IsWithinLimits}, trace.Isolated.{inner_at}};
ghost use Rattle.seen_network.specs.{Seen.{Seen}, Windows.{GoesTo}};
ghost use Rattle.seen_state.specs.SeenState.{Knows};
ghost use Rattle.window_audit.specs.{CalmMemory.{Remembers}, Opening.{AreSites, OpensWith, is_good}};

use crate::address::address_at;
use crate::calm_memory::CalmMemory;
use eth_encap::inner_at;
use hvpls_spokes::PortSet as PlaceSet;
use net_base::{CircuitId, CircuitPlan, Plan, ServiceId};
use net_values::Mac;
use seen_state::SeenState;

/// What is known of a frame before it enters.
#[derive(Clone, Copy)]
pub struct Opening {
    pub service: ServiceId,
    /// Where it goes; `None` for a frame to a group.
    pub destination: Option<Mac>,
    /// The circuits at which it has to leave, by their places.
    pub sites: PlaceSet,
}

/// What is known of a frame that is put at a circuit: the circuit is on, the frame has no fault, and the service is seen calm. `None`
/// where one of these does not hold.
pub(crate) fn open_at(
    state: &SeenState,
    calm: &mut CalmMemory,
    plan: &Plan,
    circuit: CircuitId,
    octets: &[u8],
) -> Option<Opening>
    requires { IsWithinLimits plan.now }
    ensures opens { (seen : Seen) → Knows state.now seen → Remembers plan.now seen calm.old → OpensWith plan.now seen circuit octets.now result }
    ensures remembers { (seen : Seen) → Knows state.now seen → Remembers plan.now seen calm.old → Remembers plan.now seen calm.new }
{
    let Some(row) = plan.circuits.get(circuit.0 as usize) else {
        return None;
    };
    if !state.is_on(circuit) {
        return None;
    }
    if !is_formed(plan, circuit, octets) {
        return None;
    }
    if !calm.is_calm(state, plan, row.service) {
        return None;
    }
    if octets.len() < 6 {
        return None;
    }
    Some(Opening {
        service: row.service,
        destination: destination(octets),
        sites: sites(state, plan, row.service, circuit),
    })
}

// Whether a frame has no fault.
fn is_formed(plan: &Plan, circuit: CircuitId, octets: &[u8]) -> bool
    ensures { result ≡ is_good (inner_at plan.now circuit octets.now) }
{
    match inner_at(plan, circuit, octets) {
        Some(Ok(_)) => true,
        Some(Err(_)) => false,
        None => false,
    }
}

// Where a frame goes; `None` for a frame to a group.
fn destination(octets: &[u8]) -> Option<Mac>
    requires { 6 ≤ length octets.now }
    ensures { GoesTo octets.now result }
{
    let address = address_at(octets, 0);
    if address.is_group() {
        None
    } else {
        Some(address)
    }
}

// The circuits of the service that are on, but for the sender.
fn sites(state: &SeenState, plan: &Plan, service: ServiceId, sender: CircuitId) -> PlaceSet
    requires { IsWithinLimits plan.now }
    ensures { (seen : Seen) → Knows state.now seen → AreSites plan.now seen service sender result }
{
    let mut sites = PlaceSet::empty();
    let rows = plan.circuits.as_slice();
    for (place, row) in rows.iter().enumerate() {
        if is_site(state, row, CircuitId(place as u16), service, sender) {
            sites.insert(place as u16);
        }
    }
    sites
}

// Whether a frame of the service has to leave at a circuit.
fn is_site(
    state: &SeenState,
    row: &CircuitPlan,
    circuit: CircuitId,
    service: ServiceId,
    sender: CircuitId,
) -> bool
    ensures { (seen : Seen) → Knows state.now seen → result ≡ ((row.now.service.0 == service.0 && seen.on circuit.0) && not (circuit.0 == sender.0)) }
{
    (row.service == service && state.is_on(circuit)) && circuit != sender
}
