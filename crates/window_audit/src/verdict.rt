//! Whether frames were seen exactly once.
ghost use Rattle.std.specs.Prelude.{◌≡◌, ◌≢◌, ◌<◌, ℕ, false, List};
ghost use Rattle.hvpls_spokes.specs.PortSet.{holds_port};
ghost use Rattle.net_base.specs.{declared.trace.entry.Entry.{Entry as Told}, plan.Accepted.{IsWithinLimits}};
ghost use Rattle.seen_network.specs.Verdict.{IsFirstOwed};
ghost use Rattle.window_audit.specs.{Exits.{HasExits}, Verdict.{AgreeOrDiffer, Judges, earlier, is_owed_at}};

use crate::exits::Exits;
use hvpls_spokes::PortSet as PlaceSet;
use net_base::Plan;
use seen_network::Window;

/// The first place at which a frame entered whose window is one of these, and that did not leave once at each site and nowhere else.
pub(crate) fn first_unserved(exits: &Exits, plan: &Plan, owed: &[Window]) -> Option<u64>
    requires { IsWithinLimits plan.now }
    ensures { (trace : List Told) → HasExits exits.now trace → IsFirstOwed plan.now trace owed.now result }
{
    let mut first = None;
    for window in owed {
        if !is_served(exits, plan, window) {
            first = Some(earlier(first, window.place));
        }
    }
    first
}

// A place, or one before it.
fn earlier(first: Option<u64>, place: u64) -> u64
    ensures { result ≡ earlier first place }
{
    match first {
        Some(first) => first.min(place),
        None => place,
    }
}

/// Whether the frame of a window left once at each site and nowhere else, each copy within twelve segments.
pub(crate) fn is_served(exits: &Exits, plan: &Plan, window: &Window) -> bool
    requires { IsWithinLimits plan.now }
    ensures { (trace : List Told) → HasExits exits.now trace → Judges plan.now trace window.now result }
{
    let leavings = exits.leavings(window.origin);
    if leavings.again || leavings.far {
        return false;
    }
    is_at_sites(plan, &window.sites, &leavings.at)
}

// Whether a frame left at those sites that are circuits of the plan, and at no other circuit. Where it did the two sets are the same,
// which takes a walk over the plan's circuits alone.
#[tactic(auto, using(crate::proofs::DueLemmas::same_agree))]
fn is_at_sites(plan: &Plan, sites: &PlaceSet, at: &PlaceSet) -> bool
    ensures { AgreeOrDiffer plan.now sites.now at.now result }
{
    if *at == due(plan, sites) {
        return true;
    }
    is_at_each(plan, sites, at)
}

// Those sites that are circuits of the plan.
#[tactic(auto, using(crate::proofs::DueLemmas::due_steps))]
fn due(plan: &Plan, sites: &PlaceSet) -> PlaceSet
    ensures { (c : ℕ) → c < 512 → holds_port result c ≡ is_owed_at plan.now sites.now c }
{
    let mut due = PlaceSet::empty();
    let count = plan.circuits.len().min(512) as u16;
    for circuit in 0..count {
        put_due(&mut due, sites, circuit);
    }
    due
}

// Puts a circuit among those where a frame is due, where it is a site.
fn put_due(due: &mut PlaceSet, sites: &PlaceSet, circuit: u16)
    requires port { circuit < 512 }
    requires new { holds_port due.old circuit ≡ false }
    ensures here { holds_port due.new circuit ≡ holds_port sites.now circuit }
    ensures others { (c : ℕ) → c ≢ circuit → holds_port due.new c ≡ holds_port due.old c }
{
    if sites.contains(circuit) {
        due.insert(circuit);
    }
}

// The same by a walk over all ports.
fn is_at_each(plan: &Plan, sites: &PlaceSet, at: &PlaceSet) -> bool
    ensures { AgreeOrDiffer plan.now sites.now at.now result }
{
    for circuit in 0..512 {
        let due = (circuit as usize) < plan.circuits.len() && sites.contains(circuit);
        if at.contains(circuit) != due {
            return false;
        }
    }
    true
}
