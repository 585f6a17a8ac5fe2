//! What an edge forwards by.
ghost use Rattle.std.specs.Prelude.{◌≡◌, ◌≤◌, ◌<◌, ◌↔◌, ◌⊎◌, ℕ, None, Some, [], length, map, position, replicate, true, IfOk, IfSome, IsNone};
ghost use Rattle.net_base.specs.{declared.trace.down.Down.TheVariants.{NoLocal}, plan.Accepted.{IsChecked}};
ghost use Rattle.net_base.specs.plan.Places.{circuit_row, service_row, wire_row};
ghost use Rattle.hvpls_spokes.specs.{Port.{is_circuit_port, is_named_port, ports_of}, PortSet.{holds_port}};
ghost use Rattle.vsi_bridge.specs.{BridgeState.{most_addresses}, Targets.{is_target, known_port}};
ghost use Rattle.edge_model.specs.{Clear.{withdrawing_at}, Frame.{destination, hearing}, Mend.{forgetting_wire}};
ghost use Rattle.edge_model.specs.State.{EdgeState, addresses_of, later, with_addresses, with_circuit, with_learned, with_ticks, with_told_down, without_port};
ghost use Rattle.edge_model.specs.Tick.{forgetting};
ghost use Rattle.edge_forwarding.specs.Domain.{age_of};
ghost use Rattle.edge_forwarding.specs.Forwarding.{IsNewForwarding, IsServiceOf, KeepsForwarding, circuits_in, domain_of, entries_of, forgotten, open_ports, own_service, told_in, with_forwarding, without_told};

use crate::domain::{Domain, change_all, change_kept, open_domains};
use crate::domain_change::DomainChange;
use hvpls_spokes::{PortName, PortSet, Ports};
use net_base::{CircuitId, Down, EdgeId, List, Mac, NoMemory, Plan, ServiceId, WireId};
use std::alloc::Global;
use std::marker::Model;
use std::rc::Rc;
use vsi_bridge::Bridge;

/// What an edge forwards frames by: the circuits that are on, why its end of each wire does not forward, as it was told last,
/// the domain of each service, and how many ticks have passed. The set of forwarding ports of each domain says again what the
/// circuits and the told causes say. Contracts see it as lists by the plan's places, and by `with_forwarding` as the state of
/// the whole edge, for any rest of it.
#[derive(Drop)]
pub struct Forwarding {
    plan: Rc<Plan>,
    me: EdgeId,
    circuits_on: Vec<bool>,
    told_down: Vec<Option<Down>>,
    domains: Vec<Option<Domain>>,
    ticks: u64,
}

impl Model for Forwarding {
    ghost use Rattle.edge_forwarding.specs.Forwarding.{ForwardingLists, IsForwarding};

    ghost Value = { ForwardingLists };

    ghost view = { λ f. record { plan = f.plan.value; me = f.me; circuits_on = f.circuits_on.items; told_down = f.told_down.items; domains = f.domains.items; ticks = f.ticks } };

    ghost invariant = { λ f. IsForwarding (record { plan = f.plan.value; me = f.me; circuits_on = f.circuits_on.items; told_down = f.told_down.items; domains = f.domains.items; ticks = f.ticks }) };
}

impl Forwarding {
    /// Every circuit is on, nothing is learned, of no end anything was told, and no tick has passed.
    pub fn open(alloc: Global, plan: Rc<Plan>, me: EdgeId) -> Result<Forwarding, NoMemory>
        requires checked { IsChecked plan.value }
        requires me { me.0 < length plan.value.edges }
        ensures { IfOk result (λ forwarding. IsNewForwarding plan.value me forwarding) }
    {
        let circuits_on = vec![in alloc; true; plan.circuits.len()]?;
        let told_down = nothing_told(alloc, plan.wires.len())?;
        let domains = open_domains(alloc, &plan, me)?;
        Ok(Forwarding {
            plan,
            me,
            circuits_on,
            told_down,
            domains,
            ticks: 0,
        })
    }

    /// Whether a circuit of the plan is on.
    pub fn is_on(&self, circuit: CircuitId) -> bool
        requires { circuit.0 < length self.now.plan.circuits }
        ensures { result ≡ circuits_in self.now circuit.0 }
    {
        self.circuits_on[circuit.0 as usize]
    }

    /// Turns a circuit of a service at the edge.
    #[tactic(auto, using(crate::proofs::ForwardingLemmas::own_within, crate::proofs::ForwardingLemmas::own_circuit))]
    pub fn turn(&mut self, circuit: CircuitId, service: ServiceId, on: bool)
        requires own { own_service self.old.me (circuit_row self.old.plan circuit) ≡ Some service }
        ensures keeps { KeepsForwarding self.old self.new }
        ensures step { (edge : EdgeState) → with_forwarding self.new edge ≡ with_circuit circuit on (with_forwarding self.old edge) }
    {
        let port = PortName::Circuit(circuit);
        let change = DomainChange::Turn { port, on };
        change_kept(&mut self.domains[service.0 as usize], change);
        self.circuits_on[circuit.0 as usize] = on;
    }

    /// The bridge forgets what it learned at a circuit of a service at the edge.
    #[tactic(auto, using(crate::proofs::ForwardingLemmas::own_within, crate::proofs::ForwardingLemmas::own_circuit))]
    pub fn forget_circuit(&mut self, circuit: CircuitId, service: ServiceId)
        requires own { own_service self.old.me (circuit_row self.old.plan circuit) ≡ Some service }
        ensures keeps { KeepsForwarding self.old self.new }
        ensures step { (edge : EdgeState) → with_forwarding self.new edge
            ≡ with_addresses service (without_port (position (is_circuit_port circuit) (ports_of self.old.plan service self.old.me)) (addresses_of (with_forwarding self.old edge) service)) (with_forwarding self.old edge) }
    {
        let port = PortName::Circuit(circuit);
        let change = DomainChange::Forget { port };
        change_kept(&mut self.domains[service.0 as usize], change);
    }

    /// What was told last of the end of a wire.
    pub fn told_last(&self, wire: WireId) -> Option<Down>
        requires { wire.0 < length self.now.plan.wires }
        ensures { result ≡ told_in self.now wire.0 }
    {
        self.told_down[wire.0 as usize]
    }

    /// This is told of the end of a wire: its port forwards where there is no cause, and else forwards no more.
    pub fn tell(&mut self, wire: WireId, down: Option<Down>)
        requires { wire.0 < length self.old.plan.wires }
        ensures keeps { KeepsForwarding self.old self.new }
        ensures step { (edge : EdgeState) → with_forwarding self.new edge ≡ with_told_down wire down (with_forwarding self.old edge) }
    {
        let service = self.service_of(wire);
        let port = PortName::Wire(wire);
        let on = down.is_none();
        let change = DomainChange::Turn { port, on };
        change_kept(&mut self.domains[service.0 as usize], change);
        self.told_down[wire.0 as usize] = down;
    }

    /// The bridge forgets what it learned at a wire.
    pub fn forget_wire(&mut self, wire: WireId)
        requires { wire.0 < length self.old.plan.wires }
        ensures keeps { KeepsForwarding self.old self.new }
        ensures step { (edge : EdgeState) → with_forwarding self.new edge ≡ forgetting_wire self.old.plan wire (wire_row self.old.plan wire) (with_forwarding self.old edge) }
    {
        let service = self.service_of(wire);
        let port = PortName::Wire(wire);
        let change = DomainChange::Forget { port };
        change_kept(&mut self.domains[service.0 as usize], change);
    }

    // The service of a wire.
    #[tactic(auto, using(crate::proofs::ForwardingLemmas::wire_within))]
    fn service_of(&self, wire: WireId) -> ServiceId
        requires { wire.0 < length self.now.plan.wires }
        ensures { IsServiceOf self.now.plan wire result }
    {
        self.plan.wires.as_slice()[wire.0 as usize].service
    }

    /// Of no end anything was told, and no wire's port forwards.
    pub fn close_wires(&mut self)
        ensures keeps { KeepsForwarding self.old self.new }
        ensures step { (edge : EdgeState) → with_forwarding self.new edge ≡ without_told (with_forwarding self.old edge) }
    {
        change_all(&mut self.domains, DomainChange::Close);
        forget_told(&mut self.told_down);
    }

    /// The bridge of a service, with its ports at the edge and its age limit; `None` where the service has no port at the edge.
    #[tactic(auto, using(crate::proofs::ForwardingLemmas::lent_some, crate::proofs::ForwardingLemmas::lent_none, crate::proofs::ForwardingLemmas::lent_past, crate::proofs::ForwardingLemmas::lent_learned, crate::proofs::ForwardingLemmas::lent_ports, crate::proofs::ForwardingLemmas::lent_age))]
    pub fn bridge(&self, service: ServiceId) -> Option<&Bridge>
        ensures none { IsNone result ↔ ((service_row self.now.plan service ≡ None) ⊎ (ports_of self.now.plan service self.now.me ≡ [])) }
        ensures learned { IfSome result (λ bridge. bridge.now.entries ≡ entries_of (domain_of self.now service.0)) }
        ensures ports { IfSome result (λ bridge. bridge.now.ports ≡ ports_of self.now.plan service self.now.me) }
        ensures age { IfSome result (λ bridge. age_of self.now.plan service ≡ Some bridge.now.age) }
    {
        match self.domains.get(service.0 as usize)? {
            Some(domain) => Some(&domain.bridge),
            None => None,
        }
    }

    /// Of each service of the plan at most 4,096 addresses are held, and none of any other. The call does nothing: its clauses
    /// say what always holds.
    pub fn bounded(&self)
        ensures few { (service : ℕ) → length (entries_of (domain_of self.now service)) ≤ most_addresses }
        ensures past { (service : ℕ) → length self.now.plan.services ≤ service → entries_of (domain_of self.now service) ≡ [] }
    {
        let _ = &self.ticks;
    }

    /// The ports of a service; `None` exactly where it has none at the edge.
    pub fn ports(&self, service: ServiceId) -> Option<&Ports>
        requires { service.0 < length self.now.plan.services }
        ensures some { IfSome result (λ ports. ports.now ≡ ports_of self.now.plan service self.now.me) }
        ensures none { result ≡ None → ports_of self.now.plan service self.now.me ≡ [] }
    {
        match &self.domains[service.0 as usize] {
            Some(domain) => Some(domain.bridge.ports()),
            None => None,
        }
    }

    /// The port of this name of a service, where it stands at the edge.
    pub fn port_of(&self, port: PortName, service: ServiceId) -> Option<u16>
        requires { service.0 < length self.now.plan.services }
        ensures { result ≡ position (is_named_port port) (ports_of self.now.plan service self.now.me) }
    {
        match &self.domains[service.0 as usize] {
            Some(domain) => domain.bridge.ports().find(port),
            None => None,
        }
    }

    /// The bridge of a service forgets what a MAC withdraw by a port names (RFC 4762 section 6.2).
    pub fn withdraw(&mut self, service: ServiceId, from: u16, addresses: &List<Mac>)
        requires { service.0 < length self.old.plan.services }
        ensures keeps { KeepsForwarding self.old self.new }
        ensures step { (edge : EdgeState) → with_forwarding self.new edge ≡ withdrawing_at service addresses.now from (with_forwarding self.old edge) }
    {
        let change = DomainChange::Withdraw { from, addresses };
        change_kept(&mut self.domains[service.0 as usize], change);
    }

    /// The bridge of a service hears an inner frame by a port that forwards, and decides on the targets.
    pub fn hear(&mut self, arrival: u16, service: ServiceId, frame: &[u8]) -> PortSet
        requires service { service.0 < length self.old.plan.services }
        requires on { open_ports self.old service arrival ≡ true }
        requires header { 14 ≤ length frame.now }
        ensures keeps { KeepsForwarding self.old self.new }
        ensures step { (edge : EdgeState) → with_forwarding self.new edge ≡ hearing service frame.now arrival (with_forwarding self.old edge) }
        ensures targets { holds_port result ≡ is_target (ports_of self.old.plan service self.old.me) (open_ports self.old service) arrival (known_port (entries_of (domain_of self.new service.0)) (destination frame.now)) }
    {
        let Some(domain) = &mut self.domains[service.0 as usize] else {
            return PortSet::empty();
        };
        domain.hear(arrival, frame, self.ticks)
    }

    /// Each bridge forgets all that it has learned.
    pub fn clear(&mut self)
        ensures keeps { KeepsForwarding self.old self.new }
        ensures step { (edge : EdgeState) → with_forwarding self.new edge ≡ with_learned (λ service. []) (with_forwarding self.old edge) }
    {
        change_all(&mut self.domains, DomainChange::Clear);
    }

    /// How many ticks have passed; the count stays at 2^64 - 1 once it is there.
    pub fn ticks(&self) -> u64
        ensures { result ≡ self.now.ticks }
    {
        self.ticks
    }

    /// One tick more.
    #[tactic(auto, using(crate::proofs::ForwardingLemmas::later_is, crate::proofs::ForwardingLemmas::later_seen))]
    pub fn count_tick(&mut self)
        ensures keeps { KeepsForwarding self.old self.new }
        ensures step { (edge : EdgeState) → with_forwarding self.new edge ≡ with_ticks (later self.old.ticks) (with_forwarding self.old edge) }
    {
        self.ticks = next_tick(self.ticks);
    }

    /// Addresses age: each bridge forgets what it has not heard for as long as its age limit.
    pub fn age(&mut self)
        ensures keeps { KeepsForwarding self.old self.new }
        ensures step { (edge : EdgeState) → with_forwarding self.new edge ≡ forgetting self.old.plan (with_forwarding self.old edge) }
    {
        let now = self.ticks;
        change_all(&mut self.domains, DomainChange::Age { now });
    }
}

// The count of ticks after one more; it stays at its type's end.
fn next_tick(ticks: u64) -> u64
    ensures next { result ≡ later ticks }
    ensures more { ticks ≤ result }
{
    if ticks < u64::MAX { ticks + 1 } else { ticks }
}

// Nothing was told of the end of any of so many wires. A function of its own, since `vec!` copies an `Option` by its parts.
fn nothing_told(alloc: Global, count: usize) -> Result<Vec<Option<Down>>, NoMemory>
    ensures { IfOk result (λ told. told.items ≡ replicate count (Some NoLocal)) }
{
    Ok(vec![in alloc; Some(Down::NoLocal); count]?)
}

// Of no end anything was told.
#[tactic(auto, using(crate::proofs::ForwardingLemmas::forgot_next))]
fn forget_told(told_down: &mut Vec<Option<Down>>)
    ensures { told_down.new.items ≡ map forgotten told_down.old.items }
{
    for down in told_down.iter_mut() {
        *down = Some(Down::NoLocal);
    }
}
